// The promises of the whole, named in contracts so that the checker asks for their proofs.
ghost use Rattle.link.specs.Promise.{Main};
ghost use Rattle.link.specs.Rows.{Table};

// The rows of the table of cases.
#[tactic(auto, using(crate::proofs::Whole::table))]
pub fn rows_stand() -> u8
    ensures { Table }
{
    0
}

// The main promise: the outer code, the inner code, frames, the file, the way on.
#[tactic(auto, using(crate::proofs::Whole::main))]
pub fn whole_stands() -> u8
    ensures { Main }
{
    0
}
