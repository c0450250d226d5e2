// Delay and offset of one exchange with a master.
ghost use Rattle.std.specs.Prelude.{◌≡◌};
ghost use Rattle.exchange_words.specs.Exchanges.{measured_of, measured_code, measured_words};

// The delay, and the offset's whole seconds and its rest.
#[unsafe(no_mangle)]
pub extern "C" fn dz_measure(exchange: &[u64; 18], measured: &mut [u64; 3]) -> u64
    ensures answer { result ≡ measured_code (measured_of exchange.now) }
    ensures words { measured.new ≡ measured_words (measured_of exchange.now) measured.old }
{
    exchange_words::put_measured(measured, exchange_words::measured(exchange))
}
