//! What the page says of a fault.
use crate::page::PAGE;
use crate::spot::Spot;

/// What the page says of a fault. Texts are broken into lines.
#[derive(Clone, Copy)]
pub struct Advice {
    /// What is wrong.
    pub sentence: &'static str,
    /// What to write instead, where no row fits.
    pub fix: &'static str,
    /// The rows of its table, of which the first that fits is taken.
    rows: &'static str,
}

/// What the page says of a fault, by the words that its line has for it: `30 VaryingToUniform`, `trap divide`, `rule 4`.
pub fn advice_on(fault: &str) -> Option<Advice> {
    for section in PAGE.split("\n# ") {
        if let Some((words, body)) = section.split_once("\n") {
            if words == fault {
                return Some(Advice::of(body));
            }
        }
    }
    None
}

impl Advice {
    // What a section says after its words.
    fn of(body: &'static str) -> Advice {
        let (said, rows) = body.split_once("\n@ ").unwrap_or((body, ""));
        let (sentence, fix) = said.split_once("\nFix: ").unwrap_or((said, ""));
        Advice {
            sentence,
            fix,
            rows,
        }
    }

    /// What to write instead: what the first row says that fits the place, else what serves in general.
    pub fn remedy(&self, spot: Option<&Spot<'_>>) -> &'static str {
        match spot {
            Some(spot) => self.remedy_at(spot),
            None => self.fix,
        }
    }

    fn remedy_at(&self, spot: &Spot<'_>) -> &'static str {
        for row in self.rows.split("\n@ ") {
            if let Some((when, fix)) = row.split_once("\nFix: ") {
                if spot.fits(when) {
                    return fix;
                }
            }
        }
        self.fix
    }
}
