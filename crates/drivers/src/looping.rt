// The loop driver: what is sent comes back. It holds 64 items in each list, in its own record.
ghost use Rattle.std.specs.Prelude.{◌≡◌};
ghost use Rattle.drivers.specs.Looping.{looping_line, just_made};

use driver::serial::Serial;
use fifo::inline::Inline;

pub type LoopDriver = Serial<Inline<64>, true>;

pub fn new() -> LoopDriver
    ensures empty { looping_line result ≡ just_made }
{
    Serial::new(Inline::new(), Inline::new(), Inline::new())
}
