// The UART: it does not loop, and its three lists are rings over memory handed over.
ghost use Rattle.std.specs.Prelude.{◌≡◌, true, false};
ghost use Rattle.drivers.specs.Uart.{Memory, SameMemory, Fits, LaysOut, uart_line, no_places};

use driver::serial::Serial;
use item::{Item, Refusal};
use ring::Ring;

pub type Uart<'a> = Serial<Ring<'a, Item>, false>;

/// A UART of no places, which keeps the memory handed over until it is laid out.
pub fn over<'a>(waiting: &'a mut [Item], records: &'a mut [Item], echo: &'a mut [Item]) -> Uart<'a>
    ensures places { uart_line result ≡ no_places }
    ensures memory { Memory result waiting.old records.old echo.old }
    ensures lent { (result.waiting.cells.ghost_name ≡ waiting.entry.ghost_name) × (result.records.cells.ghost_name ≡ records.entry.ghost_name) × (result.echo.cells.ghost_name ≡ echo.entry.ghost_name) }
{
    Serial::new(Ring::over(waiting), Ring::over(records), Ring::over(echo))
}

fn fits(uart: &Uart) -> bool
    ensures yes { result ≡ true → Fits uart.now }
    ensures no { result ≡ false → Fits uart.now → ⊥ }
{
    uart.waiting.fits() && uart.records.fits() && uart.echo.fits()
}

/// Takes all the memory for places, and empties the lists. Refused 12 where one of the three is none or more than 1,024.
pub fn lay_out(uart: &mut Uart) -> Result<(), Refusal>
    ensures lays { LaysOut uart.old result uart.new }
    ensures lent { SameMemory uart.old uart.new }
{
    if !fits(uart) {
        return Err(Refusal::OutOfBounds);
    }
    uart.waiting.lay_out()?;
    uart.records.lay_out()?;
    uart.echo.lay_out()?;
    uart.begun = None;
    Ok(())
}
