// Times inside: natural numbers of bounded size.
ghost use Rattle.std.specs.Prelude.{◌^◌, ◌<◌};

// A time, raised by 2^48: whole seconds, and a part in nanoseconds times 2^16 that may be several seconds.
#[derive(Clone, Copy)]
pub(crate) struct Time {
    pub seconds: u64,
    pub part: u64,
    ghost seconds_fit: { seconds < 2 ^ 48 },
    ghost part_fits: { part < 2 ^ 50 },
}
