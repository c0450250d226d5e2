// Taking an Announce from octets on one port of eighteen. Refused in this order: 8 (a port outside 1 to 18), the reading
// checks (1 to 7), 3 (another message than an Announce), 9 (another domain), 10 (our own clock), 11, 12, 13. Where it refuses, no
// word changes; an Announce that is taken writes one record and one time.
ghost use Rattle.std.specs.Prelude.{◌≡◌, ◌≤◌, length};
ghost use Rattle.message.specs.Fields.{announce_of};
ghost use Rattle.senders.specs.Port.{outcome_of};
ghost use Rattle.slots.specs.Words.{grade_word};
ghost use Rattle.ports.specs.Intake.{grandmaster_of, notice_of, judged_of, admitted_of, plan_at, state_after};

use crate::WORDS;
use message::announce::Heard;
use rank::Grandmaster;
use refusal::Refusal;
use senders::Notice;

// What an Announce is judged by: our domain and clockIdentity, and the magic of White Rabbit's TLVs.
#[derive(Clone, Copy)]
pub struct Settings {
    pub domain: u8,
    pub clock: u64,
    pub magic: u16,
}

// What is kept of an Announce.
fn notice(h: Heard) -> Notice
    ensures { result ≡ notice_of h }
{
    let header = h.header;
    let a = h.announce;
    Notice {
        sender: header.source,
        sequence: header.sequence,
        grandmaster: Grandmaster {
            priority1: a.priority1,
            class: a.class,
            accuracy: a.accuracy,
            variance: a.variance,
            priority2: a.priority2,
            identity: a.grandmaster,
        },
        steps: a.steps,
        wrflags: h.flags,
    }
}

// 9 where the domain is another, 10 where the sender is our own clock.
fn judge(h: Heard, set: Settings) -> Result<Notice, Refusal>
    ensures { result ≡ judged_of set h }
{
    let header = h.header;
    if header.domain != set.domain {
        return Err(Refusal::Domain);
    }
    if header.source.clock == set.clock {
        return Err(Refusal::Own);
    }
    Ok(notice(h))
}

// All that is asked before the port's records are looked at.
fn admit(port: u8, s: &[u8], set: Settings) -> Result<Notice, Refusal>
    ensures { result ≡ admitted_of set port s.now }
{
    if !refusal::is_port(port) {
        return Err(Refusal::Port);
    }
    judge(message::announce::read_announce(s, set.magic)?, set)
}

// The word of the quality in an Announce's octets: its keys stand there in their order, and stepsRemoved apart from them.
fn grade_at(s: &[u8]) -> u64
    requires { 64 ≤ length s.now }
    ensures { result ≡ grade_word (grandmaster_of (announce_of s.now)) (announce_of s.now).steps }
{
    octets::held::u48_at(s, 47) * 0x10000 + (octets::held::u16_at(s, 61) as u64)
}

// Takes the Announce in `s` on a port at `t`, or refuses it. What is only kept is read where it is written: read before the
// slots are searched, it would be put aside and fetched again.
pub fn take(
    words: &mut [u64; WORDS],
    port: u8,
    t: u64,
    s: &[u8],
    set: Settings,
) -> Result<(), Refusal>
    ensures { (result ≡ outcome_of (plan_at set words.old port t s.now)) × (words.new ≡ state_after words.old port t (plan_at set words.old port t s.now)) }
{
    let a = admit(port, s, set)?;
    let (i, r) = slots::plan(crate::own(words, port), t, a)?;
    let identity = octets::held::u64_at(s, 53);
    let grade = grade_at(s);
    let b = crate::start(port);
    slots::put(&mut words[b..b + slots::WORDS], i, t, r, identity, grade);
    Ok(())
}
