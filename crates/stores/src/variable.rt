ghost use Rattle.std.specs.Prelude.{◌≡◌, cond, nat_lt, Ok, Err};
ghost use Rattle.faults.specs.declared.fault.Fault.TheVariants.{NoSuchVariable};

use faults::Fault;

// The variables are 0 to 31.
pub fn check_variable(variable: u8) -> Result<(), Fault>
    ensures { result ≡ cond (nat_lt 31 variable) (Err NoSuchVariable) (Ok tt) }
{
    if variable > 31 {
        return Err(Fault::NoSuchVariable);
    }
    Ok(())
}
