// Eighteen ports' sender records, in 1764 words that the host keeps: zeroed words are a fresh clock.
ghost use Rattle.std.specs.Prelude.{◌≡◌};
ghost use Rattle.refusal.specs.Refusal.{code_of};
ghost use Rattle.ports.specs.Asking.{candidate_on, best_on, status_of, looked_at};
ghost use Rattle.bursts.specs.Burst.{burst_check, burst_words, burst_rows};
ghost use Rattle.ports.specs.Intake.{plan_at, state_after};
ghost use Rattle.ports.specs.When.{take_number};
ghost use Rattle.ports.specs.Interval.{interval_set, interval_after};
ghost use Rattle.candidate_words.specs.Candidates.{asked_code, asked_words};
ghost use Rattle.candidate_words.specs.Answers.{status_code, status_words, looked_code, looked_words};
ghost use Rattle.words.specs.Words.{port_of};
ghost use Rattle.dzervolat.specs.Settings.{settings};

use ports::intake::Settings;

// Takes the Announce in `octets` on a port at time `t`.
#[unsafe(no_mangle)]
pub extern "C" fn dz_take(
    ports: &mut [u64; ports::WORDS],
    port: u64,
    t: u64,
    octets: &[u8],
    domain: u8,
    clock: u64,
    magic: u16,
) -> u64
    ensures answer { result ≡ take_number (settings domain clock magic) ports.old (port_of port) t octets.now }
    ensures words { ports.new ≡ state_after ports.old (port_of port) t (plan_at (settings domain clock magic) ports.old (port_of port) t octets.now) }
{
    let set = Settings {
        domain,
        clock,
        magic,
    };
    bursts::answer(ports, port, t, octets, set)
}

// Takes a burst, message by message, and writes the answer of each beside it.
#[unsafe(no_mangle)]
pub extern "C" fn dz_take_burst(
    ports: &mut [u64; ports::WORDS],
    octets: &[u8],
    burst: &mut [[u64; bursts::ROW]],
    domain: u8,
    clock: u64,
    magic: u16,
) -> u64
    ensures answer { result ≡ code_of (burst_check burst.old) }
    ensures words { ports.new ≡ burst_words (settings domain clock magic) octets.now ports.old burst.old }
    ensures rows { burst.new ≡ burst_rows (settings domain clock magic) octets.now ports.old burst.old }
{
    let set = Settings {
        domain,
        clock,
        magic,
    };
    refusal::code(bursts::take_burst(ports, octets, burst, set))
}

// The candidate in a slot of a port at time `t`: 1 and its eleven words, or zeros.
#[unsafe(no_mangle)]
pub extern "C" fn dz_candidate(
    ports: &[u64; ports::WORDS],
    port: u64,
    slot: usize,
    t: u64,
    found: &mut [u64; 12],
) -> u64
    ensures answer { result ≡ asked_code (candidate_on ports.now (port_of port) slot t) }
    ensures words { found.new ≡ asked_words (candidate_on ports.now (port_of port) slot t) found.old }
{
    let p = words::port_of(port);
    candidate_words::candidates::put_asked(found, ports::asking::candidate(ports, p, slot, t))
}

// The best of a port's candidates at time `t`: 1 and its eleven words, or zeros.
#[unsafe(no_mangle)]
pub extern "C" fn dz_best(
    ports: &[u64; ports::WORDS],
    port: u64,
    t: u64,
    found: &mut [u64; 12],
) -> u64
    ensures answer { result ≡ asked_code (best_on ports.now (port_of port) t) }
    ensures words { found.new ≡ asked_words (best_on ports.now (port_of port) t) found.old }
{
    let p = words::port_of(port);
    candidate_words::candidates::put_asked(found, ports::asking::best(ports, p, t))
}

// A port's last accepted time and its interval's exponent.
#[unsafe(no_mangle)]
pub extern "C" fn dz_status(ports: &[u64; ports::WORDS], port: u64, status: &mut [u64; 2]) -> u64
    ensures answer { result ≡ status_code (status_of ports.now (port_of port)) }
    ensures words { status.new ≡ status_words (status_of ports.now (port_of port)) status.old }
{
    let p = words::port_of(port);
    candidate_words::answers::put_status(status, ports::asking::port_status(ports, p))
}

// The record in a slot of a port: 1 and what it holds, or zeros.
#[unsafe(no_mangle)]
pub extern "C" fn dz_record(
    ports: &[u64; ports::WORDS],
    port: u64,
    slot: usize,
    held: &mut [u64; 15],
) -> u64
    ensures answer { result ≡ looked_code (looked_at ports.now (port_of port) slot) }
    ensures words { held.new ≡ looked_words (looked_at ports.now (port_of port) slot) held.old }
{
    let p = words::port_of(port);
    candidate_words::answers::put_looked(held, ports::asking::look(ports, p, slot))
}

// Sets a port's announce interval to 2^k seconds.
#[unsafe(no_mangle)]
pub extern "C" fn dz_set_interval(ports: &mut [u64; ports::WORDS], port: u64, k: i8) -> u64
    ensures answer { result ≡ code_of (interval_set (port_of port) k) }
    ensures words { ports.new ≡ interval_after ports.old (port_of port) k }
{
    let p = words::port_of(port);
    refusal::code(ports::interval::set_interval(ports, p, k))
}
