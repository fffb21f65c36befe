// SipHash-2-4 of a message under a key.
#![tactic(auto)]

ghost use Rattle.std.specs.Prelude.{◌≡◌, ◌+◌, ◌*◌, ◌%◌, ◌^◌, ◌<◌, map, fold, length};
ghost use Rattle.siphash.specs.Sip.{started, sip_round, absorbed, finished, sip_hash};
ghost use Rattle.siphash.specs.Words.{little, behind};

// A key of 128 bits: its first eight bytes and its others, the lowest byte first.
#[derive(Clone, Copy)]
pub struct Key {
    pub low: u64,
    pub high: u64,
}

// The four words that a hash is computed in.
#[derive(Clone, Copy)]
struct State {
    v0: u64,
    v1: u64,
    v2: u64,
    v3: u64,
}

impl State {
    // The state that a key begins with.
    fn new(key: Key) -> State
        ensures { result ≡ started key.low key.high }
    {
        State {
            v0: key.low ^ 0x736f_6d65_7073_6575,
            v1: key.high ^ 0x646f_7261_6e64_6f6d,
            v2: key.low ^ 0x6c79_6765_6e65_7261,
            v3: key.high ^ 0x7465_6462_7974_6573,
        }
    }

    // One round.
    fn round(self) -> State
        ensures { result ≡ sip_round self }
    {
        let v0 = self.v0.wrapping_add(self.v1);
        let v2 = self.v2.wrapping_add(self.v3);
        let v1 = self.v1.rotate_left(13) ^ v0;
        let v3 = self.v3.rotate_left(16) ^ v2;
        let v2 = v2.wrapping_add(v1);
        let v0 = v0.rotate_left(32).wrapping_add(v3);
        let v1 = v1.rotate_left(17) ^ v2;
        let v3 = v3.rotate_left(21) ^ v0;
        let v2 = v2.rotate_left(32);
        State { v0, v1, v2, v3 }
    }

    // The state with a word of the message taken in.
    fn absorb(self, word: u64) -> State
        ensures { result ≡ absorbed self word }
    {
        let v3 = self.v3 ^ word;
        let mixed = State { v3, ..self }.round().round();
        let v0 = mixed.v0 ^ word;
        State { v0, ..mixed }
    }

    // The state with these blocks taken in, one after another.
    fn absorb_all(self, blocks: &[[u8; 8]]) -> State
        ensures { result ≡ fold absorbed self (map little blocks.now) }
    {
        blocks.iter().map(word).fold(self, State::absorb)
    }

    // The hash that it gives at the end.
    fn finish(self) -> u64
        ensures { result ≡ finished self }
    {
        let v2 = self.v2 ^ 0xff;
        let mixed = State { v2, ..self }.round().round().round().round();
        mixed.v0 ^ mixed.v1 ^ mixed.v2 ^ mixed.v3
    }
}

// The number that eight bytes write, the lowest byte first.
fn word(block: &[u8; 8]) -> u64
    ensures { result ≡ little block.now }
{
    u64::from_le_bytes(*block)
}

// The number that fewer than four bytes write.
fn few(bytes: &[u8]) -> u64
    requires { length bytes.now < 4 }
    ensures value { result ≡ little bytes.now }
    ensures small { result < 2 ^ 24 }
{
    match bytes {
        [] => 0,
        [a] => u64::from(*a),
        [a, b] => u64::from(*a) + (u64::from(*b) << 8),
        [a, b, c, ..] => u64::from(*a) + (u64::from(*b) << 8) + (u64::from(*c) << 16),
    }
}

// The number that fewer than eight bytes write.
// Four of them are read at once: byte by byte, a hash of six bytes takes a quarter longer.
fn short(bytes: &[u8]) -> u64
    requires { length bytes.now < 8 }
    ensures value { result ≡ little bytes.now }
    ensures small { result < 2 ^ 56 }
{
    match bytes.split_first_chunk::<4>() {
        Some((four, more)) => u64::from(u32::from_le_bytes(*four)) + (few(more) << 32),
        None => few(bytes),
    }
}

// The number that the bytes behind the whole blocks write.
// Stays: a hash of 14 bytes takes about 1.05 times as long as Rust's own; with a fold over these bytes it takes 1.21 times as long, and with a block of zeros that holds them 1.55.
#[inline(always)]
fn tail(message: &[u8]) -> u64
    ensures value { result ≡ little (behind message.now) }
    ensures small { result < 2 ^ 56 }
{
    match message.last_chunk::<8>() {
        Some(eight) => (word(eight) >> 8) >> (56 - 8 * (message.len() % 8)),
        None => short(message),
    }
}

// The last word: the bytes behind the whole blocks, and on top the low byte of the length.
#[inline(always)]
fn last_word(message: &[u8]) -> u64
    ensures { result ≡ little (behind message.now) + length message.now % 256 * 2 ^ 56 }
{
    tail(message) + ((message.len() as u64) << 56)
}

// SipHash-2-4 of a message under a key.
#[inline(always)]
pub fn siphash(key: Key, message: &[u8]) -> u64
    ensures { result ≡ sip_hash key.low key.high message.now }
{
    let (blocks, _) = message.as_chunks::<8>();
    let state = State::new(key).absorb_all(blocks);
    state.absorb(last_word(message)).finish()
}
