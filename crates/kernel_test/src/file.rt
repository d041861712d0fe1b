// What is on file: whether it is what a scan found.
ghost use Rattle.std.specs.Prelude.{◌≡◌};
ghost use Rattle.record.specs.Numbers.{refused_with};
ghost use Rattle.kernel_test.specs.Looks.{file_refusal};

use kernel_values::running;
use machine::OnFile;
use record::refusals::Refusal;

// 1 where the kernel test found nothing, 16 where another task or next event is on file than the one found.
pub fn file_refusal(found: Option<OnFile>, stored: OnFile) -> Result<(), Refusal>
    ensures { refused_with result ≡ file_refusal found stored }
{
    let Some(found) = found else {
        return Err(Refusal::UnfitKernel);
    };
    let same = running::is_same(stored.running, found.running)
        && calendar::is_same(stored.next, found.next);
    if !same {
        return Err(Refusal::WrongFile);
    }
    Ok(())
}
