#![tactic(auto)]
// The engine as a host written in C calls it: include/dzervolat.h says what each call does, in plain words.
//
// A call returns 0, or the number of the refusal and, of a 6 or 7, its place above it; then nothing lent has changed. What it answers
// goes into words that are lent, in the order that the crates *_words give. Nothing is decided here: a function unpacks words, asks the
// engine and packs the answer.
ghost use Rattle.std.specs.Prelude.{◌≡◌};

pub mod capturing;
pub mod measuring;
pub mod ranking;
pub mod reading;
pub mod records;
pub mod steps;
pub mod tracing;
pub mod writing;

// The number of this library: DZ_VERSION of the header that belongs to it.
#[unsafe(no_mangle)]
pub extern "C" fn dz_version() -> u64
    ensures { result ≡ 6 }
{
    6
}
