// Where lanes and rows lie in the picture.
ghost use Rattle.std.specs.Prelude.{◌≡◌};
ghost use Rattle.charts.specs.Layouts.{lane_of, has_lane, column, height, point_of, spot_of, far_side, legend_height, picture_width, picture_height};

use crate::sign::Sign;
use picture::{Anchor, Point, Spot};
use wire::Party;

// How many lanes of each sort there are, and how many rows.
#[derive(Clone, Copy, PartialEq, Eq, Debug)]
pub struct Layout {
    pub clients: u8,
    pub replicas: u8,
    pub rows: u16,
}

// Where the lane of a party meets a row.
#[derive(Clone, Copy, PartialEq, Eq, Debug)]
pub struct Place {
    pub party: Party,
    pub row: u16,
}

// Where a text stands by its place.
#[derive(Clone, Copy, PartialEq, Eq, Debug)]
pub enum Slot {
    Left,
    LowerLeft,
    Right,
    LowerRight,
    // in the band of the lane
    Within,
    // as the head of the lane
    Head,
}

// How far down a row lies: row 0 is that of the heads.
pub(crate) fn height(row: u16) -> u32
    ensures { result ≡ height row }
{
    70 + 26 * u32::from(row)
}

impl Layout {
    // The lanes from the left: the source, the clients, the replicas.
    pub fn lane(self, party: Party) -> u16
        ensures { result ≡ lane_of self.clients party }
    {
        match party {
            Party::Source => 0,
            Party::Client(client) => u16::from(client.number()),
            Party::Replica(replica) => 1 + u16::from(self.clients) + u16::from(replica.number()),
        }
    }

    // Whether there is a lane for this party.
    pub fn has(self, party: Party) -> bool
        ensures { result ≡ has_lane self party }
    {
        match party {
            Party::Source => true,
            Party::Client(client) => client.number() <= self.clients,
            Party::Replica(replica) => replica.number() < self.replicas,
        }
    }

    // How far to the right the lane of a party lies.
    pub fn column(self, party: Party) -> u32
        ensures { result ≡ column self.clients party }
    {
        170 + 120 * u32::from(self.lane(party))
    }

    // Where a lane meets a row, and where a text stands by it.
    pub fn point(self, place: Place) -> Point
        ensures { result ≡ point_of self.clients place }
    {
        Point {
            x: u64::from(self.column(place.party)),
            y: u64::from(height(place.row)),
        }
    }

    pub fn spot(self, place: Place, slot: Slot) -> Spot
        ensures { result ≡ spot_of self.clients place slot }
    {
        let x = u64::from(self.column(place.party));
        let y = u64::from(height(place.row));
        let (x, y, anchor, size) = match slot {
            Slot::Left => (x - 16, y, Anchor::End, 10),
            Slot::LowerLeft => (x - 16, y + 11, Anchor::End, 10),
            Slot::Right => (x + 16, y, Anchor::Start, 10),
            Slot::LowerRight => (x + 19, y + 11, Anchor::Start, 10),
            Slot::Within => (x + 4, y, Anchor::Middle, 10),
            Slot::Head => (x, y, Anchor::Middle, 13),
        };
        Spot {
            at: Point { x, y },
            anchor,
            size,
        }
    }

    // The side of a place that an arrow does not come from.
    pub fn far_side(self, from: Place, to: Place) -> Slot
        ensures { result ≡ far_side self.clients from to }
    {
        if self.lane(from.party) < self.lane(to.party) {
            Slot::Right
        } else {
            Slot::Left
        }
    }

    // How far down a line of the legend lies.
    pub fn legend(self, sign: Sign) -> u32
        ensures { result ≡ legend_height self.rows sign }
    {
        70 + 26 * (u32::from(self.rows) + 3 + u32::from(sign.line()))
    }

    // Lanes and the room beside them, and no less than the legend needs.
    pub fn width(self) -> u64
        ensures { result ≡ picture_width self }
    {
        (170 + 120 * (1 + u64::from(self.clients) + u64::from(self.replicas))).max(700)
    }

    // The rows, the heads above and below them, and the legend.
    pub fn height(self) -> u64
        ensures { result ≡ picture_height self }
    {
        70 + 26 * (u64::from(self.rows) + 10)
    }
}
