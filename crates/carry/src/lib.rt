// A logical block made anew; and the plan of a write carried out: the merge, if there is one, the page itself, and the erase of a block that it makes useless.
// The run and the records have one shape: each function asks it. A struct of both would hold the run behind a further reference, and each method would promise the run's two references anew.

#![tactic(auto)]

ghost use Rattle.std.specs.Prelude.{◌≡◌, [], ◌∷◌, ◌<◌, length, option_copied};
ghost use Rattle.roles.specs.Kept.{recorded_by};
ghost use Rattle.steps.specs.Doing.{image_in, Does};
ghost use Rattle.carry.specs.Carrying.{Sized, page_for, copy_to, copies_to, renewal_steps, Renewable, Kept, first_steps, planned, Doable};

use content::holder;
use plans::plan::Plan;
use plans::renewal::Renewal;
use roles::records::Records;
use rules::kind::Kind;
use steps::run::Run;

// Programs the page at offset o: with part o of the block buffer, or with none with the present content, from where it lies.
fn copy_page(run: &mut Run, records: &Records, renewal: &Renewal, block: Option<&[u8]>, o: usize)
    requires { (run.old.shape ≡ records.now.shape) × Renewable records.now.shape renewal.now (option_copied block)
        × (o < records.now.shape.pages) }
    ensures { Does (λ im. copy_to records.now.shape im (recorded_by records.now) renewal.now (option_copied block.entry) o ∷ [])
        run.old run.new }
{
    let a = renewal.logical * records.shape.pages + o;
    let p = run.shape.page_no(renewal.into.unwrap(), o);
    let n = renewal.highest + 1;
    match block {
        Some(block) => {
            let at = o * 512;
            run.program_entry(p, n, Kind::Copy, a, &block[at..at + 512]);
        }
        None => {
            let place = holder::of(run.chip().spare, records, a);
            run.copy_entry(p, n, Kind::Copy, a, place);
        }
    }
}

// Programs the pages in order.
fn copy_all(run: &mut Run, records: &Records, renewal: &Renewal, block: Option<&[u8]>)
    requires { (run.old.shape ≡ records.now.shape) × Renewable records.now.shape renewal.now (option_copied block)
        × Kept records.now.shape (image_in run.old) (recorded_by records.now) renewal.now (option_copied block) }
    ensures { Does (λ im. copies_to records.now.shape im (recorded_by records.now) renewal.now (option_copied block.entry) records.now.shape.pages)
        run.old run.new }
{
    for o in 0..records.shape.pages {
        copy_page(run, records, renewal, block, o);
    }
}

// Makes a logical block anew: with the P parts of the block buffer, or with none with its present content.
pub fn renew(run: &mut Run, records: &Records, renewal: &Renewal, block: Option<&[u8]>)
    requires { (run.old.shape ≡ records.now.shape) × Renewable records.now.shape renewal.now (option_copied block)
        × Kept records.now.shape (image_in run.old) (recorded_by records.now) renewal.now (option_copied block) }
    ensures { Does (λ im. renewal_steps records.now.shape im (recorded_by records.now) renewal.now (option_copied block.entry))
        run.old run.new }
{
    copy_all(run, records, renewal, block);
    run.erase_any(renewal.log);
    run.erase_any(renewal.data);
}

// The merge that comes before the write's own page, if any.
fn first_steps(run: &mut Run, records: &Records, plan: &Plan)
    requires { (run.old.shape ≡ records.now.shape)
        × Doable records.now.shape (image_in run.old) (recorded_by records.now) plan.now }
    ensures { Does (λ im. first_steps records.now.shape im (recorded_by records.now) plan.now)
        run.old run.new }
{
    if let Some(merge) = plan.merge {
        renew(run, records, &merge, None);
    }
}

// Carries the plan out. Not inlined, as `plan::of` is not: what it lays on the stack is gone while the records are read.
#[inline(never)]
pub fn carry_out(run: &mut Run, records: &Records, plan: &Plan, a: usize, page: &[u8])
    requires { (run.old.shape ≡ records.now.shape) × (length page.now ≡ 512)
        × Doable records.now.shape (image_in run.old) (recorded_by records.now) plan.now }
    ensures { Does (λ im. planned records.now.shape im (recorded_by records.now) plan.now a page.now)
        run.old run.new }
{
    first_steps(run, records, plan);
    let at = run.shape.page_no(plan.block.unwrap(), plan.place);
    run.program_entry(at, plan.number + plan.needed, Kind::Log, a, page);
    run.erase_any(plan.former);
}
