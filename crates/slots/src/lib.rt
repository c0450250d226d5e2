#![tactic(auto)]
// The records of one port in 98 words that the host lends: the last accepted time, the interval, and sixteen records of six
// words each (specs/Words has the layout). The fields fill their words, so any words are a port, and words of zero
// are a port that has heard nothing.
//
// `plan` says what an Announce is to do, or refuses it with 11 (its time lies before the last accepted one), 12 or 13, and changes no word;
// `put` carries a plan out and writes one record and the time. Asking refuses 11. Reading messages, and which port's words these
// are, is left to those above.
ghost use Rattle.std.specs.Prelude.{◌≡◌, ◌+◌, ◌-◌, ◌≤◌, ◌<◌, length, set, position, MatchResult};
ghost use Rattle.refusal.specs.declared.Refusal.TheVariants.{Backward};
ghost use Rattle.senders.specs.Port.{plan_of, asked_of, candidate_in, best_of};
ghost use Rattle.senders.specs.Record.{is_of, is_free};
ghost use Rattle.slots.specs.Words.{block, of_six, six_of, id_word, grade_word, slot_at, port_of, put_slot, words_after, seen_in, first_in, before_in, later_in, outdoes_in, port_words, records_of};
ghost use Rattle.slots.specs.Places.{place_among, place_in, above_in};

use identity::PortIdentity;
use rank::{Candidate, Grandmaster};
use refusal::Refusal;
use senders::{Notice, Record, SLOTS};

// The words of a port: two, and sixteen records of six.
pub const WORDS: usize = 98;

// The words of a record.
pub const RECORD: usize = 6;

// The record in a slot's six words.
pub fn read(s: &[u64; RECORD]) -> Record
    ensures { result ≡ of_six s.now }
{
    let id = s[1];
    let grade = s[5];
    Record {
        notice: Notice {
            sender: PortIdentity {
                clock: s[0],
                port: (id % 0x10000) as u16,
            },
            sequence: (id / 0x10000 % 0x10000) as u16,
            grandmaster: Grandmaster {
                priority1: (grade / 0x100000000000000 % 0x100) as u8,
                class: (grade / 0x1000000000000 % 0x100) as u8,
                accuracy: (grade / 0x10000000000 % 0x100) as u8,
                variance: (grade / 0x1000000 % 0x10000) as u16,
                priority2: (grade / 0x10000 % 0x100) as u8,
                identity: s[4],
            },
            steps: (grade % 0x10000) as u16,
            wrflags: (id / 0x100000000 % 0x10000) as u16,
        },
        receipts: (id / 0x1000000000000 % 0x10000) as u16,
        newest: s[2],
        older: s[3],
    }
}

// The word that tells two records of a clock apart: the sender's port, sequenceId, wrFlags, receipts.
fn pack_id(port: u16, sequence: u16, wrflags: u16, receipts: u16) -> u64
    ensures { result ≡ id_word port sequence wrflags receipts }
{
    u64::from(port)
        + 0x10000 * u64::from(sequence)
        + 0x100000000 * u64::from(wrflags)
        + 0x1000000000000 * u64::from(receipts)
}

// Puts a record into a slot's six words; the last two are handed on as they were read. Word by word: an array of them, copied in
// (`copy_from_slice`), makes taking an Announce 17 instructions longer, 173 for 156.
fn write(s: &mut [u64], r: Record, identity: u64, grade: u64)
    requires s_len { length s.old ≡ 6 }
    requires identity_value { (identity ≡ r.notice.grandmaster.identity) × (grade ≡ grade_word r.notice.grandmaster r.notice.steps) }
    ensures { s.new ≡ six_of r }
{
    let n = r.notice;
    s[0] = n.sender.clock;
    s[1] = pack_id(n.sender.port, n.sequence, n.wrflags, r.receipts);
    s[2] = r.newest;
    s[3] = r.older;
    s[4] = identity;
    s[5] = grade;
}

// The sixteen records of a port.
fn records(ws: &[u64; WORDS]) -> &[[u64; RECORD]]
    ensures value { result.now ≡ records_of ws.now }
    ensures len { length result.now ≡ 16 }
{
    ws[2..].as_chunks().0
}

// The record in slot `i`.
fn load(ws: &[u64; WORDS], i: usize) -> Record
    requires { i < 16 }
    ensures { result ≡ slot_at ws.now i }
{
    read(&records(ws)[i])
}

// Slot `i` holds the record afterwards, and no other word changes.
fn store(ws: &mut [u64], i: usize, r: Record, identity: u64, grade: u64)
    requires ws_len { (length ws.old ≡ port_words) × (i < 16) }
    requires identity_value { (identity ≡ r.notice.grandmaster.identity) × (grade ≡ grade_word r.notice.grandmaster r.notice.steps) }
    ensures { ws.new ≡ put_slot ws.old i r }
{
    let b = 2 + RECORD * i;
    write(&mut ws[b..b + RECORD], r, identity, grade);
}

// The lowest slot whose record is a sender's.
fn find_of(ws: &[u64; WORDS], sender: PortIdentity) -> Option<usize>
    ensures { result ≡ position (λ s. is_of sender (of_six s)) (records_of ws.now) }
{
    records(ws)
        .iter()
        .position(|s| senders::is_of(read(s), sender))
}

// The lowest slot that is empty or expired.
fn find_free(ws: &[u64; WORDS], w: u64, t: u64) -> Option<usize>
    ensures { result ≡ position (λ s. is_free w t (of_six s)) (records_of ws.now) }
{
    records(ws)
        .iter()
        .position(|s| senders::is_free(read(s), w, t))
}

// 11 where `t` lies before the last accepted time.
fn in_turn(ws: &[u64; WORDS], t: u64) -> Result<(), Refusal>
    ensures { MatchResult result (λ _. (port_of ws.now).last ≤ t) (λ x. (t < (port_of ws.now).last) × (x ≡ Backward)) }
{
    if t < last(ws) {
        return Err(Refusal::Backward);
    }
    Ok(())
}

// What an Announce at `t` is to do.
pub fn plan(ws: &[u64; WORDS], t: u64, a: Notice) -> Result<(usize, Record), Refusal>
    ensures { result ≡ plan_of (port_of ws.now) t a }
{
    in_turn(ws, t)?;
    let w = senders::window(ws[1]);
    match find_of(ws, a.sender) {
        Some(i) => senders::known(load(ws, i), i, w, t, a),
        None => senders::unknown(find_free(ws, w, t), t, a),
    }
}

// Carries out a plan that puts a record into slot `i`: the record and the time are written. The grandmaster and the word of its
// quality are handed on by the caller, who reads them where they are kept and not before the slots are searched. The words to write
// are a slice and no array: tried, but what an array that is cut out of lent words (`as_mut_array`) leaves in them is not known.
pub fn put(ws: &mut [u64], i: usize, t: u64, r: Record, identity: u64, grade: u64)
    requires ws_len { (length ws.old ≡ port_words) × (i < 16) }
    requires identity_value { (identity ≡ r.notice.grandmaster.identity) × (grade ≡ grade_word r.notice.grandmaster r.notice.steps) }
    ensures { ws.new ≡ words_after ws.old t (Ok (i, r)) }
{
    store(ws, i, r, identity, grade);
    ws[0] = t;
}

// What slot `i` holds.
pub fn slot(ws: &[u64; WORDS], i: usize) -> Option<Record>
    ensures { result ≡ seen_in (port_of ws.now) i }
{
    if i < SLOTS {
        let r = load(ws, i);
        if r.receipts != 0 {
            return Some(r);
        }
    }
    None
}

// The candidate in slot `i` at `t`; `port` is the port that keeps it.
pub fn candidate(
    ws: &[u64; WORDS],
    port: u8,
    i: usize,
    t: u64,
) -> Result<Option<Candidate>, Refusal>
    ensures { result ≡ asked_of (port_of ws.now) t (candidate_in port (port_of ws.now) i t) }
{
    in_turn(ws, t)?;
    let w = senders::window(ws[1]);
    if i < SLOTS {
        let r = load(ws, i);
        if senders::is_qualified(r, w, t) {
            return Ok(Some(senders::candidate(r, port)));
        }
    }
    Ok(None)
}

// Whether the record of six words comes before that of six others by the first of the keys before the sender's port that differs;
// none where all are alike. The quality is one number in its word, highest key first, so that it is compared at once.
fn by_first(a: &[u64; RECORD], b: &[u64; RECORD]) -> Option<bool>
    ensures { result ≡ first_in a.now b.now }
{
    let p = a[5];
    let q = b[5];
    if p / 0x10000 != q / 0x10000 {
        return Some(p / 0x10000 < q / 0x10000);
    }
    if a[4] != b[4] {
        return Some(a[4] < b[4]);
    }
    if p % 0x10000 != q % 0x10000 {
        return Some(p % 0x10000 < q % 0x10000);
    }
    if a[0] != b[0] {
        return Some(a[0] < b[0]);
    }
    None
}

// The keys behind the sender's clock: its port, then wrFlags.
fn later_keys(a: u64, b: u64) -> bool
    ensures { result ≡ later_in a b }
{
    if a % 0x10000 != b % 0x10000 {
        return a % 0x10000 < b % 0x10000;
    }
    a / 0x100000000 % 0x10000 < b / 0x100000000 % 0x10000
}

// Whether the record of six words stands before that of six others in rank order, on one port.
fn stands_before(a: &[u64; RECORD], b: &[u64; RECORD]) -> bool
    ensures { result ≡ before_in a.now b.now }
{
    by_first(a, b).unwrap_or_else(|| later_keys(a[1], b[1]))
}

// Whether the record of six words stands before that of six others by the keys that come before the port. Where the
// others are of a port with a lower number, this is rank order.
pub fn comes_before(a: &[u64; RECORD], b: &[u64; RECORD]) -> bool
    ensures { result ≡ above_in a.now b.now }
{
    by_first(a, b).unwrap_or(a[1] % 0x10000 < b[1] % 0x10000)
}

// The six words from a place on.
fn record(ws: &[u64; WORDS], at: usize) -> &[u64; RECORD]
    requires { at + 6 ≤ port_words }
    ensures { result.now ≡ block ws.now at 6 }
{
    ws[at..at + RECORD].as_array().unwrap()
}

// Whether the record that begins at `a` is qualified and stands before the one that begins at `b`; `b` is 0 where there is none.
fn outdoes(ws: &[u64; WORDS], a: usize, b: usize, w: u64, t: u64) -> bool
    requires { (a + 6 ≤ port_words) × (b + 6 ≤ port_words) }
    ensures { result ≡ outdoes_in ws.now a b w t }
{
    let s = record(ws, a);
    if !senders::is_qualified(read(s), w, t) {
        return false;
    }
    if b == 0 {
        return true;
    }
    stands_before(s, record(ws, b))
}

// When the window that ends at `t` begins.
fn since(w: u64, t: u64) -> u64
    ensures { result ≡ t - w }
{
    t.saturating_sub(w)
}

// Where the record of the best candidate at `t` begins, or 0: a number and no option, since whoever decides keeps eighteen
// places at hand, a word each. It goes from the last slot to the first. A record is qualified at `t` where it is at the begin
// of the window, by a window of no length: one comparison a slot.
fn best_place(ws: &[u64; WORDS], w: u64, t: u64) -> usize
    ensures { result ≡ place_among ws.now w t 16 }
{
    let begin = since(w, t);
    let mut b: usize = 0;
    for i in (0..SLOTS).rev() {
        let a = 2 + RECORD * i;
        if outdoes(ws, a, b, 0, begin) {
            b = a;
        }
    }
    b
}

// The best candidate at `t`.
pub fn best(ws: &[u64; WORDS], port: u8, t: u64) -> Result<Option<Candidate>, Refusal>
    ensures { result ≡ asked_of (port_of ws.now) t (best_of port (port_of ws.now) t) }
{
    in_turn(ws, t)?;
    let b = best_place(ws, senders::window(ws[1]), t);
    if b == 0 {
        return Ok(None);
    }
    Ok(Some(senders::candidate(read(record(ws, b)), port)))
}

// Where the record of the best candidate at `t` begins in the port's words, or 0 where there is none.
pub fn place(ws: &[u64; WORDS], t: u64) -> usize
    ensures { result ≡ place_in ws.now t }
{
    best_place(ws, senders::window(ws[1]), t)
}

// The last accepted time.
pub fn last(ws: &[u64; WORDS]) -> u64
    ensures { result ≡ (port_of ws.now).last }
{
    ws[0]
}

// The interval's exponent modulo 8, as it was set.
pub fn exponent(ws: &[u64; WORDS]) -> u64
    ensures { result ≡ (port_of ws.now).e }
{
    ws[1]
}

// Sets the interval's exponent, modulo 8.
pub fn set_exponent(ws: &mut [u64], e: u64)
    requires { length ws.old ≡ port_words }
    ensures { ws.new ≡ set ws.old 1 e }
{
    ws[1] = e;
}
