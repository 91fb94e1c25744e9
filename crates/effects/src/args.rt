// A call's byte arguments, as control is told of them.
ghost use Rattle.std.specs.Prelude.{◌≡◌, ◌+◌, ◌<◌, length};
ghost use Rattle.control.specs.declared.Job as job;
ghost use Rattle.control.specs.Meaning.{lens_of};
ghost use Rattle.effects.specs.Args.{args_of};

use control::Lens;

pub fn lens(first: &[u8], second: &[u8]) -> Lens
    requires { length first.now + length second.now < 60000 }
    ensures { (j : job.Job) → result ≡ lens_of (args_of j first.now second.now) }
{
    Lens {
        first: first.len() as u16,
        second: second.len() as u16,
    }
}
