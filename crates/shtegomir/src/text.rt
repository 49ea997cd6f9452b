// The listing of a cohort file.
ghost use Rattle.told.specs.Text.{ReportCalled};

use told::text::Text;

#[unsafe(no_mangle)]
pub extern "C" fn shtegomir_report(file: &[u8], text: &mut [u8]) -> Text
    ensures { ReportCalled file.now text.old result text.new }
{
    Text::from(report::report(file, text))
}
