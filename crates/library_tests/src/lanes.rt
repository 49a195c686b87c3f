// Each kernel against a plain loop, at every length from 0 to 200, with what tells at every place.
use sj_lanes::{count_newlines, first_special_unit, same_bytes};

const LONGEST: usize = 200;

fn plain_same(a: &[u8], b: &[u8]) -> bool {
    a.len() == b.len() && a.iter().zip(b).all(|(x, y)| x == y)
}

fn plain_first(units: &[u16]) -> Option<usize> {
    for (i, &unit) in units.iter().enumerate() {
        match unit {
            0x22 | 0x5c => return Some(i),
            0x20..=0x7e => {}
            _ => return Some(i),
        }
    }
    None
}

fn plain_count(bytes: &[u8]) -> usize {
    let mut total = 0usize;
    for &byte in bytes {
        if byte == b'\n' {
            total = total.wrapping_add(1);
        }
    }
    total
}

// Whether each change of one byte in these bytes is seen, and each cut.
fn are_changes_seen(bytes: &[u8], copy: &mut [u8]) -> bool {
    if !same_bytes(bytes, copy) {
        return false;
    }
    for place in 0..copy.len() {
        copy[place] ^= 0x80;
        let same = same_bytes(bytes, copy);
        if same || same != plain_same(bytes, copy) {
            return false;
        }
        copy[place] ^= 0x80;
        if same_bytes(bytes, &copy[..place]) {
            return false;
        }
    }
    true
}

#[test]
fn same_at_every_length_and_place(rt: HostRuntime) {
    let mut bytes = [0u8; LONGEST];
    for (i, byte) in bytes.iter_mut().enumerate() {
        *byte = (i % 251) as u8;
    }
    let mut copy = bytes;
    for len in 0..=LONGEST {
        assert!(rt; are_changes_seen(&bytes[..len], &mut copy[..len]));
    }
}

const SPECIAL: [u16; 8] = [0u16, 0x1f, 0x22, 0x5c, 0x7f, 0x80, 0xd800, 0xffff];

// Whether a special unit is found at each place in plain units, where another special one is the last.
fn are_special_found(units: &mut [u16]) -> bool {
    let len = units.len();
    if first_special_unit(units).is_some() {
        return false;
    }
    for place in 0..len {
        let (kept, last) = (units[place], units[len - 1]);
        units[len - 1] = 0x22;
        units[place] = SPECIAL[(len % 8 + place % 8) % 8];
        let found = first_special_unit(units);
        if found != Some(place) || found != plain_first(units) {
            return false;
        }
        units[len - 1] = last;
        units[place] = kept;
    }
    true
}

#[test]
fn first_special_at_every_length_and_place(rt: HostRuntime) {
    let plain = [0x20u16, 0x21, 0x23, 0x5b, 0x5d, 0x7e];
    let mut units = [0u16; LONGEST];
    for (i, unit) in units.iter_mut().enumerate() {
        *unit = plain[i % 6];
    }
    for len in 0..=LONGEST {
        assert!(rt; are_special_found(&mut units[..len]));
    }
}

fn is_told(units: &[u16]) -> bool {
    first_special_unit(units) == plain_first(units)
}

#[test]
fn each_unit_is_told(rt: HostRuntime) {
    for unit in 0..=u16::MAX {
        let mut units = [b'a' as u16; 40];
        units[20] = unit;
        assert!(rt; is_told(&units) && is_told(&units[15..22]));
    }
}

// Whether so many line feeds are counted in the bytes, and one in their last ones.
fn is_counted(bytes: &[u8], last: &[u8], count: usize) -> bool {
    count_newlines(last) == 1 && count_newlines(bytes) == count && plain_count(bytes) == count
}

#[test]
fn counts_at_every_length_and_place(rt: HostRuntime) {
    for len in 0..=LONGEST {
        let mut bytes = [b'\r'; LONGEST];
        for place in 0..len {
            bytes[place] = b'\n';
            assert!(rt; is_counted(&bytes[..len], &bytes[place..len], place + 1));
        }
    }
}

// 255 blocks of 64 bytes are the most that the lanes count before they are added up.
#[test]
fn counts_past_what_a_lane_holds(rt: HostRuntime) {
    let bytes = [b'\n'; 40_000];
    for len in [16_319, 16_320, 16_321, 16_384, 32_640, 32_641, 40_000] {
        assert!(rt; count_newlines(&bytes[..len]) == len);
    }
}
