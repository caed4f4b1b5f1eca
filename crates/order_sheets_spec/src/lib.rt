// Sheets: the ordering tables that a user supplies for the modes 5 to 8, as text. What such a text is, and what reading one answers, is defined in
// specs/, and each claim about it is the contract of a function that computes nothing. The crate of the reader stands above it.
#![tactic(auto)]

ghost use Rattle.order_sheets_spec.specs.Sheets.{sheet_call};
ghost use Rattle.order_sheets_spec.specs.Claims.{ReadsSheets, RefusesSheets, OrdersByRead, SheetsDiffer, SheetsAgree};
ghost use Rattle.order_sheets_spec.specs.WrongSheets.{WrongSheets};

// Does nothing. Its contract: a text is read exactly where it is the sheet of a permutation of its mode, each refusal comes on its condition,
// ordering by a sheet that was read and undoing it restores the codec's row, and no text is the sheet of two tables.
pub fn sheets_claim()
    ensures { ReadsSheets sheet_call × RefusesSheets sheet_call × OrdersByRead × SheetsDiffer }
{}

// Does nothing. Its contract: two programs that meet these claims give the same answers.
pub fn answers_claim()
    ensures { SheetsAgree }
{}

// Does nothing. Its contract: wrong readers do not meet the claims: one that accepts a leading zero, a sheet without its last line feed, octets
// behind it, a number twice, or numbers that lost their upper digits, and others.
pub fn wrong_sheets_claim()
    ensures { WrongSheets }
{}
