// What a replica decides on an entry, as a function on values.
ghost use Rattle.std.specs.Prelude.{◌≡◌};
ghost use Rattle.replicas.specs.Decisions.{decided, present, holding, entering, stocked, higher, posts, saves};

use rules::{Heading, Judged, Objection, Rules, configured, sender_within};
use stores::Card;
use wire::{Configuration, Entry, EntryKind, Pair, Party, Replica, ReplicaSet};

// The card to save and the entry to post, if any.
#[derive(Clone, Copy, PartialEq, Eq, Debug)]
pub struct Decision {
    pub save: Option<Card>,
    pub post: Option<Entry>,
}

// The configuration that the replica is in.
fn present(card: &Card) -> Configuration
    ensures { result ≡ present card.now }
{
    Configuration {
        epoch: card.epoch,
        set: card.set,
        seal: card.seal,
    }
}

// The card with another pair.
fn holding(card: &Card, pair: Pair) -> Card
    ensures { result ≡ holding card.now pair }
{
    Card { pair, ..*card }
}

// The card in the next configuration, where the replica has yet to fetch the state.
fn entering(card: &Card, new: Configuration) -> Card
    ensures { result ≡ entering card.now new }
{
    Card {
        epoch: new.epoch,
        set: new.set,
        seal: new.seal,
        previous: card.set,
        previous_seal: card.seal,
        heard: ReplicaSet(0),
        ready: false,
        pair: card.pair,
    }
}

fn higher(mine: Pair, other: Pair) -> Pair
    ensures { result ≡ higher mine other }
{
    if other.stamp.is_above(mine.stamp) {
        other
    } else {
        mine
    }
}

// The card after the pair of one more member of the previous set.
fn stocked(rules: &Rules, card: &Card, from: Replica, pair: Pair) -> Card
    ensures { result ≡ stocked rules.now card.now from pair }
{
    let heard = card.heard.with(from);
    Card {
        heard,
        ready: rules.is_quorum(heard),
        pair: higher(card.pair, pair),
        ..*card
    }
}

fn posts(entry: Entry) -> Result<Decision, Objection>
    ensures { result ≡ posts entry }
{
    Ok(Decision {
        save: None,
        post: Some(entry),
    })
}

fn saves(card: Card, post: Option<Entry>) -> Result<Decision, Objection>
    ensures { result ≡ saves card post }
{
    Ok(Decision {
        save: Some(card),
        post,
    })
}

// What a replica with this card makes of an entry that was judged.
#[inline(always)]
pub fn decide(
    rules: &Rules,
    replica: Replica,
    card: &Card,
    judged: &Judged,
) -> Result<Decision, Objection>
    ensures { result ≡ decided rules.now replica card.now judged.now.entry judged.now.genuine }
{
    let Judged { entry, genuine } = *judged;
    let me = u8::from(Party::Replica(replica));
    let answer = Heading::answering(me, &entry);
    let is_member = card.set.contains(replica);
    let is_shown = entry.configuration().set.contains(replica);
    let from = sender_within(card.previous, entry.sender);
    // Stays: one match with guards, a rule of the project: whoever reads the protocol finds the checks of a replica here,
    // in their order.
    match EntryKind::try_from(entry.kind) {
        Ok(EntryKind::Read | EntryKind::Write) if entry.epoch < card.epoch => {
            posts(configured(me, EntryKind::Config, present(card)))
        }
        Ok(EntryKind::Read | EntryKind::Write) if entry.epoch > card.epoch => {
            posts(answer.plain(EntryKind::Behind))
        }
        Ok(EntryKind::Read | EntryKind::Write) if !is_member => Err(Objection::NotMember),
        Ok(EntryKind::Read | EntryKind::Write) if !card.ready => Err(Objection::NotReady),
        Ok(EntryKind::Read) => posts(answer.paired(EntryKind::Pair, card.pair)),
        Ok(EntryKind::Write) if !genuine => Err(Objection::NotGenuine),
        Ok(EntryKind::Write) if entry.pair().stamp.is_above(card.pair.stamp) => saves(
            holding(card, entry.pair()),
            Some(answer.plain(EntryKind::Ack)),
        ),
        Ok(EntryKind::Write) => posts(answer.plain(EntryKind::Ack)),
        Ok(EntryKind::Config) if u64::from(entry.epoch) != u64::from(card.epoch) + 1 => {
            Err(Objection::NotNext)
        }
        Ok(EntryKind::Config) if !genuine => Err(Objection::NotGenuine),
        Ok(EntryKind::Config) if is_member && !card.ready => Err(Objection::NotReady),
        Ok(EntryKind::Config) => saves(
            entering(card, entry.configuration()),
            is_shown.then_some(configured(me, EntryKind::Transfer, present(card))),
        ),
        Ok(EntryKind::Transfer) if !genuine => Err(Objection::NotGenuine),
        Ok(EntryKind::Transfer) if !is_shown => Err(Objection::NotMember),
        Ok(EntryKind::Transfer) if card.epoch <= entry.epoch => {
            posts(answer.plain(EntryKind::Behind))
        }
        Ok(EntryKind::Transfer) => posts(answer.paired(EntryKind::Stock, card.pair)),
        Ok(EntryKind::Stock)
            if !is_member || card.ready || u64::from(entry.epoch) + 1 != u64::from(card.epoch) => {
            Err(Objection::NotAwaited)
        }
        Ok(EntryKind::Stock) if from.is_none() => Err(Objection::NotMember),
        Ok(EntryKind::Stock) if from.is_some_and(|from| card.heard.contains(from)) => {
            Err(Objection::AlreadyCounted)
        }
        Ok(EntryKind::Stock) if !genuine => Err(Objection::NotGenuine),
        Ok(EntryKind::Stock) => Ok(Decision {
            save: from.map(|from| stocked(rules, card, from, entry.pair())),
            post: None,
        }),
        Ok(EntryKind::Behind) => posts(configured(me, EntryKind::Config, present(card))),
        Ok(EntryKind::Pair | EntryKind::Ack) | Err(_) => Err(Objection::NotAwaited),
    }
}
