// A table of places in the commercial centre's file (Req 01): where a row with a result number begins, by a hash of the number. A slot has two entries,
// the place and the hash. Each number may have 256 of the 32,768 slots, from the one of its hash on, and has the first of them that was free.
#![tactic(auto)]

ghost use Rattle.std.specs.Prelude.{◌≡◌, false, cond, ◌<◌, length};
ghost use Rattle.csv_rules.specs.Written.{halved};
ghost use Rattle.csv_rules.specs.Columns.{number_of};
ghost use Rattle.csv_rows.specs.Rows.{items_of};
ghost use Rattle.csv_places.specs.Places.{items_at, stirred, hash_of, slot_filled, slot_after, number_at, RowThere, Places, SlotIs, keeps_place, with_place};
ghost use Rattle.csv_places.specs.Slots.{Nothing, free_slot};

use csv_rows::RowItems;

// What is kept of a number.
#[derive(Clone, Copy)]
pub enum Slot {
    Held(usize), // a row with it begins at this place
    Free(usize), // nothing; this slot is free
    Crowded, // nothing, and the slots that it may have are taken
}

// The table, empty.
pub fn empty() -> [u32; 65536]
    ensures result_len { length result ≡ 65536 }
    ensures none { Nothing result }
{
    [0u32; 65536]
}

// A hash with a byte more; the second of two quotes is left out. The factor is 4,294,967,296 by the golden ratio, an odd number: numbers in turn lie far
// apart, and those that differ in their first bytes alone still differ.
fn with_byte(h: usize, b: u8, second: bool) -> usize
    requires { h < 4294967296 }
    ensures value { result ≡ cond second h (stirred h b) }
    ensures small { result < 4294967296 }
{
    if second {
        return h;
    }
    ((h + usize::from(b)) * 2654435769) % 4294967296
}

// The hash of an item, from how it lies in the file.
fn hash(raw: &[u8]) -> usize
    ensures value { result ≡ hash_of (halved false raw.now) }
    ensures small { result < 4294967296 }
{
    let mut h = 0;
    let mut second = false;
    for &b in raw {
        h = with_byte(h, b, second);
        second = !second & (b == 0x22);
    }
    h
}

// The hash of a row's number.
pub fn hash_of(row: &RowItems) -> usize
    ensures value { result ≡ hash_of (number_of (items_of row.now)) }
    ensures small { result < 4294967296 }
{
    hash(row.item(6))
}

// The slot behind one, the first behind the last.
fn slot_after(slot: usize) -> usize
    requires { slot < 32768 }
    ensures value { result ≡ slot_after slot }
    ensures within { result < 32768 }
{
    if slot == 32767 {
        return 0;
    }
    slot + 1
}

// Whether the row that begins at a place has the number of a row.
fn number_there(file: &[u8], p: usize, row: &RowItems) -> bool
    requires { RowThere file.now p }
    ensures { result ≡ number_at file.now (items_of row.now) p }
{
    let there = csv_rows::row(file, p, true).unwrap();
    csv_keys::same_number(row, &there.items)
}

// The same, where the hashes of both numbers are known: the row is read only where they are alike.
fn number_marked(file: &[u8], p: usize, mark: usize, row: &RowItems, hash: usize) -> bool
    requires { RowThere file.now p × (mark ≡ hash_of (number_of (items_at file.now p))) × (hash ≡ hash_of (number_of (items_of row.now))) }
    ensures { result ≡ number_at file.now (items_of row.now) p }
{
    if mark == hash {
        return number_there(file, p, row);
    }
    false
}

// What is kept of the number of a row, whose hash is given: looked for from the slot of its hash on.
pub fn look_up(file: &[u8], places: &[u32; 65536], row: &RowItems, hash: usize) -> Slot
    requires { Places file.now places.now × (hash ≡ hash_of (number_of (items_of row.now))) }
    ensures { SlotIs file.now places.now (items_of row.now) result }
{
    let mut slot = hash % 32768;
    for _ in 0..256usize {
        let p = places[2 * slot] as usize;
        if p == 0 {
            return Slot::Free(slot);
        }
        let mark = places[2 * slot + 1] as usize;
        if number_marked(file, p, mark, row, hash) {
            return Slot::Held(p);
        }
        slot = slot_after(slot);
    }
    Slot::Crowded
}

// Fills a slot.
fn put(places: &mut [u32; 65536], i: usize, at: usize, hash: usize)
    requires { (i < 32768) × (at < 4294967296) × (hash < 4294967296) }
    ensures { places.new ≡ slot_filled places.old i at hash }
{
    places[2 * i] = at as u32;
    places[2 * i + 1] = hash as u32;
}

// Keeps a place for a number, whose hash is given, where a slot is free; tells whether the number is known then.
pub fn keep(places: &mut [u32; 65536], slot: Slot, at: usize, hash: usize) -> bool
    requires { (free_slot slot < 32768) × (hash < 4294967296) }
    ensures value { result ≡ keeps_place slot at }
    ensures kept { places.new ≡ with_place places.old slot at hash }
{
    match slot {
        Slot::Held(_) => true,
        Slot::Free(i) => {
            if at < 4294967296 {
                put(places, i, at, hash);
                return true;
            }
            false
        }
        Slot::Crowded => false,
    }
}
