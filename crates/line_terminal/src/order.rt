// The order in which items went out on a line.
use item::{Band, Item};
use show::AsText;
use std::fmt::{self, Display, Formatter};

/// What went out, as text: in front of each run of items of one band, the band's number.
#[derive(Clone, Copy)]
pub struct InOrder<'a>(pub &'a [(Band, Item)]);

impl Display for InOrder<'_> {
    fn fmt<W: fmt::Write>(&self, f: &mut Formatter<W>) -> fmt::Result {
        for run in self.0.chunk_by(|one, next| one.0 == next.0) {
            if let Some((band, _)) = run.first() {
                write!(f, "  [band {}] ", band.number())?;
            }
            for (_, item) in run {
                write!(f, "{}", AsText(*item))?;
            }
        }
        Ok(())
    }
}

/// Prints what went out on the line, in order.
pub fn print_order(rt: &impl Print, sent: &[(Band, Item)]) -> anyhow::Result<()> {
    println!(rt; "  on the line     {}", InOrder(sent))?;
    Ok(())
}
