//! Laws about the content of files. They are for proofs and do nothing at run time.

ghost use Rattle.std.specs.Prelude.{◌≡◌};
ghost use Rattle.imports.specs.declared.records.TheConstants.{MOST_RECORDS};
ghost use Rattle.imports.specs.declared.rows.TheConstants.{FIRST_ROW, LAST_ROW};
ghost use Rattle.imports.specs.FirstRecords.{SetupsByTheirFront, CountsByTheirFront};
ghost use Rattle.imports.specs.Written.{SheetsAreSaid, CountsAreSaid};

/// Reading the file that `csv` writes for a sheet or a count gives that command, if it is within
/// its ranges and the file has at most 1,048,576 bytes.
pub fn commands_are_said()
    ensures sheets { SheetsAreSaid }
    ensures counts { CountsAreSaid }
{}

/// The first 5,002 records of a file determine its rows or first fault, however many more are read.
pub fn first_records_decide()
    ensures setups { SetupsByTheirFront }
    ensures counts { CountsByTheirFront }
{}

/// The records that are read: the header, 5,000 rows on lines 2 to 5,001, and one more.
pub fn rows_have_their_lines()
    ensures records { MOST_RECORDS ≡ 5002 }
    ensures lines { (FIRST_ROW ≡ 2) × (LAST_ROW ≡ 5001) }
{}
