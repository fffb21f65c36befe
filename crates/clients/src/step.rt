// The begin and the step of a client.
ghost use Rattle.std.specs.Prelude.{◌≡◌};
ghost use Rattle.clients.specs.Steps.{begun, ClientStep};

use crate::fault::ClientFault;
use crate::line::{Line, Stage};
use crate::turn::{Standing, Turn, decide, one_more};
use kinds::{Kind, Word};
use rules::Rules;
use sealers::{Sealer, SealerFault};
use wire::{Client, Entry, Pair, Text};

// Begins a read, or a write of this word, and answers the READ to post; a refusal leaves the line as it was.
// Stays: client and line apart, here and in the step: the line is the caller's, lent for the call.
pub fn begin<L: Sealer>(
    client: Client,
    line: &mut Line,
    word: Option<Word>,
    sealer: &L,
) -> Result<Entry, ClientFault>
    ensures { record { answer = result; line = line.new } ≡ begun client line.old word (L.desk sealer.now).seals }
{
    if !line.stage.is_idle() {
        return Err(ClientFault::Busy(client));
    }
    let round = one_more(line.round).map_err(|why| ClientFault::Objects(client, why))?;
    if word.is_some() && sealer.left(client.number()) == 0 {
        return Err(ClientFault::Sealer(SealerFault::NoSeal(client.number())));
    }
    let next = line
        .asking(word)
        .opened(Stage::Reading, round, Pair::default());
    *line = next;
    Ok(Standing { client, line: next }.read())
}

// Hands an entry to a client. Answers the entry that it posts, if any; a refusal leaves line and sealer as they were.
#[inline(always)]
pub fn client_step<K: Kind, L: Sealer>(
    rules: &Rules,
    client: Client,
    line: &mut Line,
    entry: &Entry,
    sealer: &mut L,
) -> Result<Option<Entry>, ClientFault>
    ensures { ClientStep rules.now K.kind.number client entry.now line.old (L.desk sealer.old) result line.new
        (L.desk sealer.new) }
{
    let judged = rules.judge::<K, L>(entry, sealer);
    match decide(rules, client, line, &judged) {
        Err(why) => Err(ClientFault::Objects(client, why)),
        Ok(Turn::Moves(next, post)) => {
            *line = next;
            Ok(post)
        }
        Ok(Turn::Stamps(next)) => {
            let seal = sealer.seal(Text::of_pair(K::NUMBER, next.highest))?;
            let sealed = Standing {
                client,
                line: next.sealed_with(seal),
            };
            *line = sealed.line;
            Ok(Some(sealed.write()))
        }
    }
}
