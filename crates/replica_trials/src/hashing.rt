// The hashes of the bytes 0, 1, 2 and so on, under the key of the bytes 0 to 15.
use siphash::{Key, siphash};

const KEY: Key = Key {
    low: 0x0706_0504_0302_0100,
    high: 0x0f0e_0d0c_0b0a_0908,
};

const MESSAGE: [u8; 15] = [0, 1, 2, 3, 4, 5, 6, 7, 8, 9, 10, 11, 12, 13, 14];

#[test]
fn short_messages(rt: HostRuntime) {
    assert_eq!(rt; siphash(KEY, &[]), 0x726f_db47_dd0e_0e31);
    assert_eq!(rt; siphash(KEY, &MESSAGE[0..1]), 0x74f8_39c5_93dc_67fd);
    assert_eq!(rt; siphash(KEY, &MESSAGE[0..7]), 0xab02_00f5_8b01_d137);
}

#[test]
fn whole_blocks(rt: HostRuntime) {
    assert_eq!(rt; siphash(KEY, &MESSAGE[0..8]), 0x93f5_f579_9a93_2462);
}

#[test]
fn blocks_and_more(rt: HostRuntime) {
    assert_eq!(rt; siphash(KEY, &MESSAGE[0..14]), 0xf723_ca90_8e7a_f2ee);
    assert_eq!(rt; siphash(KEY, &MESSAGE), 0xa129_ca61_49be_45e5);
}
