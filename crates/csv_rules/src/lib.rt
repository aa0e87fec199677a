// The types of the answers about a commercial centre's file (Req 01).
#![tactic(auto)]

ghost use Rattle.std.specs.Prelude.{◌≡◌};
ghost use Rattle.csv_rules.specs.Answers.{fault_number};
ghost use Rattle.csv_rules.specs.declared.NotMade.TheVariants.{Unfit, Faulty};

use rules::Refusal;

// Why a file is refused: a case for each number of the request.
#[derive(Clone, Copy)]
pub enum FileFault {
    Quoting = 50,
    Columns = 51,
    Unconverted = 52,
    HeaderDiffers = 53,
    Returns = 54,
}

// How many sheets a file holds, and the place of its first row.
#[derive(Clone, Copy)]
pub struct CsvSheets {
    pub count: usize,
    pub first: usize,
}

// Why no sheet comes out of a file: the file's refusal; or another: no such sheet, the sheet's own, a buffer too short.
#[derive(Clone, Copy)]
pub enum NotMade {
    Unfit(Refusal),
    Faulty(FileFault),
}

impl From<Refusal> for NotMade {
    ghost from_gives = { λ r e. e ≡ Unfit r };

    fn from(refusal: Refusal) -> NotMade {
        NotMade::Unfit(refusal)
    }
}

impl From<FileFault> for NotMade {
    ghost from_gives = { λ f e. e ≡ Faulty f };

    fn from(fault: FileFault) -> NotMade {
        NotMade::Faulty(fault)
    }
}

// A sheet of a file that is gone through sheet by sheet: its length, or why there is none; and the place behind its rows.
#[derive(Clone, Copy)]
pub struct Next {
    pub made: Result<usize, NotMade>,
    pub place: usize,
}

// The request's number of a fault.
pub fn fault_number(fault: FileFault) -> usize
    ensures { result ≡ fault_number fault }
{
    fault as usize
}
