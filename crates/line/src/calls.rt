ghost use Rattle.line.specs.LineMeaning.{line_meaning};
ghost use Rattle.line.specs.Keeps.{line_laws};

use crate::line::Line;
use crate::pick::Pick;
use family::{Band, Family, Span, check_length, clear};
use words::{Reason, Refusal};

impl Family for Line {
    ghost meaning = { line_meaning };

    ghost laws = { line_laws };

    fn row_width() -> u16 {
        2
    }

    fn pick_width() -> u16 {
        4
    }

    fn value_width() -> u16 {
        1
    }

    fn scan(_tick: u32, row: &[u32]) -> Result<(), Refusal> {
        let _ = Band::read(row)?;
        Ok(())
    }

    fn restart(&mut self) {
        self.clear();
    }

    fn fits(&self, tick: u32, row: &[u32]) -> Result<bool, Refusal> {
        Ok(self.step(tick, row)?.is_some())
    }

    fn take(&mut self, tick: u32, row: &[u32]) -> Result<(), Refusal> {
        let Some(step) = self.step(tick, row)? else {
            return Err(Refusal::new(Reason::Unfitting));
        };
        self.span = Some(step.span);
        self.bounds = step.bounds;
        step.push_onto(&mut self.lows, &mut self.highs);
        Ok(())
    }

    fn pick(&self, slot: &mut [u32]) -> Result<(), Refusal> {
        check_length(4, slot.len(), Reason::WordsLength)?;
        self.choose().write(slot);
        Ok(())
    }

    fn check(words: &[u32], span: Span) -> Result<(), Refusal> {
        check_length(4, words.len(), Reason::WordsLength)?;
        match Pick::read(words) {
            Some(pick) if pick.is_lawful(span) => Ok(()),
            _ => Err(Refusal::new(Reason::Unlawful)),
        }
    }

    fn value(words: &[u32], span: Span, tick: u32, row: &mut [u32]) -> Result<(), Refusal> {
        clear(row);
        Self::check_value(words, span, tick, row.len())?;
        row[0] = Pick::read(words).unwrap().level_at(tick);
        Ok(())
    }
}
