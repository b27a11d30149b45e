// What a laboratory is shown of a record: the averages of its last valid window in decimal, or its refusal.
ghost use Rattle.std.specs.Prelude.{OnOk, ℕ, List};
ghost use Rattle.std.specs.Io.KnownBytes.{Appends};
ghost use Rattle.rejudging.specs.Rejudging.{tested_of};
ghost use Rattle.averaging.specs.Decimals.{billionths, places, number_text};
ghost use Rattle.averaging.specs.Printing.{averages_line, Printed, PrintClaims};

use crate::FloatAverages;
use crate::decimals::billionths;
use loaded_test::Test;
use refusal::Refusal;
use std::io;
use std::io::Write;

// The last k digits of a number, zeros in front included.
#[tactic(auto, using(crate::proofs::Placed::no_place, crate::proofs::Placed::last_place))]
fn print_places<W: Write>(k: u8, n: u64, output: &mut W) -> io::Result<()>
    ensures { OnOk result (Appends (W.contents output.old) (W.contents output.new) (places k n)) }
{
    if k == 0 {
        return Ok(());
    }
    print_places(k - 1, n / 10, output)?;
    write!(output, "{}", n % 10)
}

// A number with nine digits behind the point, or "-".
#[tactic(auto, unfolding(crate::specs::Decimals::decimal_text))]
fn print_number<W: Write>(x: f64, output: &mut W) -> io::Result<()>
    ensures { OnOk result (Appends (W.contents output.old) (W.contents output.new) (number_text (billionths x))) }
{
    let Some(n) = billionths(x) else {
        return write!(output, "-");
    };
    write!(output, "{}.", n / 1_000_000_000)?;
    print_places(9, n % 1_000_000_000, output)
}

fn print_averages<W: Write>(x: FloatAverages, output: &mut W) -> io::Result<()>
    ensures { OnOk result (Appends (W.contents output.old) (W.contents output.new) (averages_line x)) }
{
    print_number(x.hc, output)?;
    write!(output, " ")?;
    print_number(x.co, output)?;
    write!(output, " ")?;
    print_number(x.no, output)?;
    writeln!(output)
}

// The line of a record's test, or of its refusal.
fn print_test<W: Write>(x: Result<Test, Refusal>, output: &mut W) -> io::Result<()>
    ensures { OnOk result ((text : List ℕ) × Printed x text × Appends (W.contents output.old) (W.contents output.new) text) }
{
    match x {
        Ok(test) => print_averages(crate::averages_of_test(test), output),
        Err(r) => writeln!(output, "{r}"),
    }
}

// Writes the averages of the last valid window of a record's test, or its refusal. Where a write fails, what was written before is left free,
// since no clause of std says how much a failing writer took.
// Ruled out: a number rounded at its ninth place, or printed with eight; averages of an unfit record; "- - -" where there is a window.
pub fn print_record<W: Write>(s: &[u8], output: &mut W) -> io::Result<()>
    ensures claims { PrintClaims }
    ensures text { OnOk result ((text : List ℕ) × Printed (tested_of s.now) text × Appends (W.contents output.old) (W.contents output.new) text) }
{
    print_test(rejudging::test_of(s), output)
}
