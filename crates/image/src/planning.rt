// Planning: from an opened file and a bias to a plan.
ghost use Rattle.std.specs.Prelude.{◌≡◌};
ghost use Rattle.faults.specs.Rules.{Answers};
ghost use Rattle.elf.specs.Layouts.{elf64};
ghost use Rattle.image.specs.Plans.{load_rules};

use crate::plan::Plan;
use elf::opened::Opened;
use faults::fault::Fault;

// Plans an opened file at a bias. The two parameters are what a `Plan` is made of, and it carries both from here on.
pub fn plan<'a>(opened: &Opened<'a>, bias: u64) -> Result<Plan<'a>, Fault>
    ensures { Answers (load_rules elf64 opened.now.file.now bias) (λ p. (p.opened.file.now ≡ opened.now.file.now) × (p.bias ≡ bias)) result }
{
    let plan = Plan::new(opened, bias);
    plan.check()?;
    Ok(plan)
}
