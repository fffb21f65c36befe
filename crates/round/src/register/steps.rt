// The steps of the parties, each of which answers an entry to post or a refusal.
use crate::deed::End;
use crate::register::{Register, no_such};
use clients::{Line, Stage, begin, client_step};
use kinds::{BinWeight, Kind, KindFault};
use refusals::{Fault, Layer, Refusal};
use replicas::replica_step;
use sealers::Keyed;
use stores::{Cabinet, Store};
use wire::{Client, Entry, Party, Replica};

fn client_of(number: u8) -> Result<Client, Refusal> {
    Client::try_from(u64::from(number)).map_err(|_| no_such(number))
}

// The place of a client's line.
fn place(client: Client) -> usize {
    usize::from(client.number().saturating_sub(1))
}

// How the operation of a line has ended, if it has.
fn end_of(line: &Line) -> Option<End> {
    match line.stage {
        Stage::Over if line.word.is_some() => Some(End::Written(line.highest)),
        Stage::Over => Some(End::Read(line.highest)),
        Stage::Idle | Stage::Reading | Stage::Writing | Stage::WritingBack => None,
    }
}

impl Register {
    pub(crate) fn begin(
        &mut self,
        client: u8,
        weight: Option<BinWeight>,
    ) -> Result<Entry, Refusal> {
        let client = client_of(client)?;
        let line = self
            .lines
            .get_mut(place(client))
            .ok_or(no_such(client.number()))?;
        let word = weight.map(|weight| weight.to_word());
        begin(client, line, word, &self.sealer).map_err(|fault| fault.told())
    }

    // The step of whoever has this number; the source takes no entries.
    pub(crate) fn step(&mut self, entry: &Entry, to: u8) -> Result<Option<Entry>, Refusal> {
        match Party::try_from(u64::from(to)) {
            Ok(Party::Client(client)) => self.step_of_client(client, entry),
            Ok(Party::Replica(replica)) => self.step_of_replica(replica, entry),
            Ok(Party::Source) | Err(_) => Err(no_such(to)),
        }
    }

    fn step_of_replica(
        &mut self,
        replica: Replica,
        entry: &Entry,
    ) -> Result<Option<Entry>, Refusal> {
        let answer = replica_step::<BinWeight, Cabinet, Keyed>(
            &self.rules,
            replica,
            entry,
            &mut self.cabinet,
            &self.sealer,
        );
        answer.map_err(|fault| fault.told())
    }

    fn step_of_client(&mut self, client: Client, entry: &Entry) -> Result<Option<Entry>, Refusal> {
        let line = self
            .lines
            .get_mut(place(client))
            .ok_or(no_such(client.number()))?;
        let answer = client_step::<BinWeight, Keyed>(
            &self.rules,
            client,
            line,
            entry,
            &mut self.sealer,
        );
        answer.map_err(|fault| fault.told())
    }

    // What a party has come to: a client that is over, or a replica that is ready.
    pub(crate) fn end(&self, party: u8) -> Option<End> {
        match Party::try_from(u64::from(party)).ok()? {
            Party::Source => None,
            Party::Client(client) => end_of(self.lines.get(place(client))?),
            Party::Replica(replica) => self
                .cabinet
                .load(replica)
                .filter(|card| card.ready)
                .map(|card| End::Ready(card.pair)),
        }
    }

    pub(crate) fn collected(&mut self, client: u8) -> Result<(End, BinWeight), Refusal> {
        let line = self
            .lines
            .get_mut(place(client_of(client)?))
            .ok_or(no_such(client))?;
        let end = end_of(line).ok_or(Refusal::new(19, Layer::Client).at(u64::from(client)))?;
        let weight = BinWeight::from_word(line.highest.word).ok_or(KindFault::NoValue.told())?;
        line.stage = Stage::Idle;
        Ok((end, weight))
    }
}
