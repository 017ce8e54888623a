// The table of connections in lent bytes: its clock, whether it is sound, the search, and the place of an opening (document 01,
// "The table").
#![tactic(auto)]

ghost use Rattle.std.specs.Prelude.{◌≡◌, ◌+◌, ◌-◌, ◌*◌, ◌%◌, ◌^◌, ◌≤◌, ◌<◌, length, ℕ};
ghost use Rattle.octets.specs.BigEndian.{octets_of};
ghost use Rattle.octets.specs.Overwrite.{overwrite};
ghost use Rattle.connection.specs.Sound.{sound_end, sound_unanswered};
ghost use Rattle.rows.specs.Rows.{from_opener, from_answerer, live_match, vacant, search, lowest_vacant};
ghost use Rattle.rows.specs.Connections.{connections};
ghost use Rattle.entry.specs.Layout.{header_size, place_at, entry_at};
ghost use Rattle.entry.specs.Viewed.{viewed};
ghost use Rattle.table.specs.Table.{clock_at, header_clock, version_byte, zeros_at, sound_header, sound_table, view_of};
ghost use Rattle.table.specs.First.{IsFirstPlace};
ghost use Rattle.table.specs.Words.{sound_word, sound_numbers, sound_entry};

use address::{Flow, Version};
use connection::{Clock, End};
use entry::{Entry, Place};
use octets::{BigEndianNumber, little32};
use serial::{OctetCount, SeqNum};

// Whether octets are all zero, in words of eight. The words are combined without an early exit, so that the compiler takes two at a time;
// by single octets the scan of free places takes 1.4 times as long.
fn all_zero(octets: &[u8]) -> bool
    requires { length octets.now % 8 ≡ 0 }
    ensures { result ≡ zeros_at octets.now 0 (length octets.now) }
{
    let mut any = 0;
    for word in octets.chunks_exact(8) {
        any |= u64::read_be(word, 0);
    }
    any == 0
}

// The header: clock (8), zeros (54), the IP version (1), zero (1)

const CLOCK: usize = 0;

const ZEROS: usize = 8;

const LAST: usize = 56;

pub fn set_clock(table: &mut [u8], clock: u64)
    requires { header_size ≤ length table.old }
    ensures { table.new ≡ overwrite table.old clock_at (octets_of 8 clock) }
{
    clock.write_be(table, CLOCK);
}

// The search. Side and flow are asked for apart, as the definitions have them: two rules of document 01 turn one or both.

// The opener's way round, by the entry at a place.
#[tactic(auto, using(crate::proofs::Match::opener_by_key))]
fn from_opener_at(place: &Place, side: u8, flow: Flow) -> bool
    ensures { result ≡ from_opener connections (viewed (entry_at place.now.version place.now.table.now place.now.at)) side flow }
{
    place.key_is(flow) && side == place.side()
}

// The side that the opener is not on. A test, as 1u8.saturating_sub(side) takes a register that the search's loop needs.
fn other_side(side: u8) -> u8
    ensures { result ≡ 1 - side }
{
    if side == 0 { 1 } else { 0 }
}

// The answerer's way round: a rule of its own, with its own definition.
#[tactic(auto, using(crate::proofs::Match::answerer_by_key))]
fn from_answerer_at(place: &Place, side: u8, flow: Flow) -> bool
    ensures { result ≡ from_answerer connections (viewed (entry_at place.now.version place.now.table.now place.now.at)) side flow }
{
    place.key_is(flow.reversed()) && side == other_side(place.side())
}

// Free or expired: a free entry's deadline is 0.
#[tactic(auto, unfolding(rows::specs::Rows::vacant, entry::specs::Layout::entry_at, entry::specs::Layout::connection_at))]
fn vacant_at(place: &Place, clock: u64) -> bool
    ensures { result ≡ vacant connections clock (viewed (entry_at place.now.version place.now.table.now place.now.at)) }
{
    clock >= place.deadline()
}

// Live and a match; the deadline is read first.
#[tactic(auto, using(crate::proofs::Match::live_if_not_vacant))]
fn live_match_at(place: &Place, clock: u64, side: u8, flow: Flow) -> bool
    ensures { result ≡ live_match connections clock side flow (viewed (entry_at place.now.version place.now.table.now place.now.at)) }
{
    !vacant_at(place, clock)
        && (from_opener_at(place, side, flow) || from_answerer_at(place, side, flow))
}

// Soundness

// An entry's first four octets as one word: stage + 256·side + 65,536·FIN bits, the zero byte above them. `k` leaves out the side's
// one bit, so that both sides are asked at once: a test of each octet would take more branches, and this scan is most of a call. Sound
// are 1 to 3 (stages 1 to 3 without FIN bits), 65,540 and 131,076 (stage 4 with FIN bits 1 or 2), 196,613 (stage 5 with FIN bits 3), and
// 6, 65,542, 131,078 and 196,614 (stage 6 with FIN bits 0 to 3). 1 to 3 are the usual ones, so they come first, in a `match` of their
// own: the compiler tests a `match`'s single numbers before its ranges. Each number has an arm, as the list above names them one by one:
// `|` was tried, and is no plainer.
fn sound_word(w: u32) -> bool
    ensures { result ≡ sound_word w }
{
    let k = w % 256 + w / 512 * 512;
    match k {
        1..=3 => true,
        _ => match k {
            65_540 => true,
            131_076 => true,
            196_613 => true,
            6 => true,
            65_542 => true,
            131_078 => true,
            196_614 => true,
            _ => false,
        },
    }
}

// Win from 1 to 65,535, and edge at most 65,535 ahead of end.
#[tactic(auto, using(choice::proofs::Choice::when_cond), unfolding(connection::specs::Sound::sound_end))]
fn sound_end(end: End) -> bool
    ensures { result ≡ sound_end end }
{
    end.win.one_to(OctetCount(65_535)) && end.edge - end.end <= OctetCount(65_535)
}

// In stage 1 the opener's edge equals its end and the answerer has 0, 0, 1.
#[tactic(auto, using(choice::proofs::Choice::when_cond), unfolding(connection::specs::Sound::sound_unanswered))]
fn sound_unanswered(opener: End, answerer: End) -> bool
    ensures { result ≡ sound_unanswered 1 opener answerer }
{
    opener.edge == opener.end
        && answerer.end == SeqNum(0)
        && answerer.edge == SeqNum(0)
        && answerer.win == OctetCount(1)
}

// An entry in use by its numbers and the zeros that end it.
#[tactic(auto, using(crate::proofs::Zeros::zeros_of_part, crate::proofs::Words::unanswered_in_1), unfolding(crate::specs::Words::sound_numbers))]
fn sound_numbers(place: &Place, clock: Clock, stage: u8) -> bool
    ensures { result ≡ sound_numbers place.now.version place.now.table.now clock.ms place.now.at stage }
{
    let opener = place.opener();
    let answerer = place.answerer();
    place.deadline() <= clock.ms + 432_000_000
        && sound_end(opener)
        && sound_end(answerer)
        && all_zero(place.rest())
        && (stage != 1 || sound_unanswered(opener, answerer))
}

// The entry at a place, by the header clock: free, or sound and in use.
fn sound_entry(place: &Place, clock: Clock) -> bool
    ensures { result ≡ sound_entry place.now.version place.now.table.now clock.ms place.now.at }
{
    let word = little32(place.table, place.at);
    if word == 0 {
        all_zero(place.octets())
    } else {
        sound_word(word) && sound_numbers(place, clock, (word % 256) as u8)
    }
}

// The header's last eight octets as one number: six of its zeros, the IP version's byte, a zero.
fn last_word(version: Version) -> u64
    ensures { result ≡ version_byte version * 256 }
{
    match version {
        Version::V4 => 0,
        Version::V6 => 256,
    }
}

// Header clock under 2^48, the IP version's byte, and the header's rest zero. That byte and the octets beside it are one load and one test.
#[tactic(auto, unfolding(crate::specs::Table::header_clock))]
fn sound_header(version: Version, bytes: &[u8]) -> bool
    requires { header_size ≤ length bytes.now }
    ensures { result ≡ sound_header version bytes.now }
{
    u64::read_be(bytes, CLOCK) < 1 << 48
        && u64::read_be(bytes, LAST) == last_word(version)
        && all_zero(&bytes[ZEROS..LAST])
}

// A table of so many places in lent bytes: read only, as a pass is stored through its own borrow, by set_clock and entry::store.
#[derive(Clone, Copy)]
pub struct Table<'a> {
    pub version: Version,
    pub bytes: &'a [u8],
    pub places: usize,
    pub ghost inside: { place_at version places ≤ length bytes.now },
}

impl<'a> Table<'a> {
    // The header clock.
    #[tactic(auto, using(choice::proofs::Choice::when_cond), unfolding(crate::specs::Table::header_clock))]
    pub fn clock(&self) -> u64
        ensures { result ≡ header_clock self.now.bytes.now }
    {
        u64::read_be(self.bytes, CLOCK)
    }

    // The place of this number.
    fn place(&self, place: usize) -> Place<'a>
        requires { place < self.now.places }
        ensures version { result.version ≡ self.now.version }
        ensures table { result.table.now ≡ self.now.bytes.now }
        ensures at { result.at ≡ place_at self.now.version place }
    {
        Place::of(self.version, self.bytes, place)
    }

    // The entry at a place.
    pub fn load(&self, place: usize) -> Entry
        requires { place < self.now.places }
        ensures { result ≡ entry_at self.now.version self.now.bytes.now (place_at self.now.version place) }
    {
        self.place(place).entry()
    }

    // The first place that passes a test: a loop over places that yields it by break, as document 01 asks for the search.
    fn first_place<F: Fn(usize) -> bool>(&self, test: F) -> Option<usize>
        requires { (place : ℕ) → place < self.now.places → F.pre test place }
        ensures { IsFirstPlace (F.post test) self.now.places result }
    {
        'found: {
            for place in 0..self.places {
                if test(place) {
                    break 'found Some(place);
                }
            }
            None
        }
    }

    // The search takes the first live match from place 0 up.
    pub fn find(&self, clock: u64, side: u8, flow: Flow) -> Option<usize>
        ensures { result ≡ search connections (view_of self.now.version self.now.bytes.now self.now.places) clock side flow }
    {
        self.first_place(|place| live_match_at(&self.place(place), clock, side, flow))
    }

    // An opening takes the first place that is free or expired.
    pub fn vacant(&self, clock: u64) -> Option<usize>
        ensures { result ≡ lowest_vacant connections (view_of self.now.version self.now.bytes.now self.now.places) clock }
    {
        self.first_place(|place| vacant_at(&self.place(place), clock))
    }

    // Whether the table is sound: its header, and every place.
    pub fn is_sound(&self) -> bool
        ensures { result ≡ sound_table self.now.version self.now.bytes.now self.now.places }
    {
        if !sound_header(self.version, self.bytes) {
            return false;
        }
        let clock = Clock { ms: self.clock() };
        // Not by `all` on the range, which was tried: of its answer a proof would need each of the range's items.
        for number in 0..self.places {
            if !sound_entry(&self.place(number), clock) {
                return false;
            }
        }
        true
    }
}
