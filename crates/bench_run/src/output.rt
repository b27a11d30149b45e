// Answers to the output.
use bench::Answer;
use loaded_test::Word;
use std::io;
use std::io::Write;

fn word(w: Word) -> &'static str {
    match w {
        Word::Pass => "pass",
        Word::Fail => "fail",
        Word::Incomplete => "incomplete",
    }
}

// "ok", and of a verdict the word, t, passing, failing and invalid; or the refusal.
pub(crate) fn line(output: &mut impl Write, answer: Answer) -> io::Result<()> {
    match answer {
        Ok(None) => writeln!(output, "ok"),
        Ok(Some(x)) => writeln!(
            output,
            "ok {} {} {} {} {}",
            word(x.word),
            x.t,
            x.passing,
            x.failing,
            x.invalid
        ),
        Err(r) => writeln!(output, "{r}"),
    }
}
