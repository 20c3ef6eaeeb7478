// The numbers that C gets for answers.
ghost use Rattle.std.specs.Prelude.{◌≡◌};
ghost use Rattle.frame.specs.Hearing.{answer};
ghost use Rattle.capi.specs.Calls.{outcome};

use bits::Refusal;

// 0 it is done, else the refusal's number.
pub fn done(call: Result<(), Refusal>) -> u32
    ensures { result ≡ outcome call }
{
    call.map_or_else(Refusal::code, |()| 0)
}

// 1 it is found, 0 there is none, else the refusal's number.
pub fn found<T: Drop>(sought: Result<Option<T>, Refusal>) -> u32
    ensures { result ≡ answer sought }
{
    sought.map_or_else(Refusal::code, |x| u32::from(x.is_some()))
}
