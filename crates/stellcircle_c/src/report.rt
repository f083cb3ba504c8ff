// The body of a flexible files LAYOUTRETURN: the C calls of `flexfiles`.

ghost use Rattle.std.specs.Prelude.{◌≡◌};
ghost use Rattle.flexfiles.specs.Handed.{handed, handed_statistic};
ghost use Rattle.reports.specs.Report.{report_of, status_of};

#[unsafe(no_mangle)]
pub extern "C" fn sc_report_check(body: &[u8]) -> u32
    ensures { result ≡ status_of (report_of body.now) }
{
    flexfiles::sc_report_check(body)
}

#[unsafe(no_mangle)]
pub extern "C" fn sc_report_next(
    body: &[u8],
    at: &mut u64,
    records: &mut u32,
    devices: &mut u32,
    device: &mut u64,
    status: &mut u32,
) -> u32
    ensures { handed body.now at.old records.old devices.old ≡ record { answer = result; at = at.new; records = records.new; devices = devices.new; device = device.new; status = status.new } }
{
    flexfiles::sc_report_next(body, at, records, devices, device, status)
}

#[unsafe(no_mangle)]
pub extern "C" fn sc_statistics_next(
    body: &[u8],
    at: &mut u64,
    left: &mut u32,
    device: &mut u64,
    read: &mut u64,
    written: &mut u64,
) -> u32
    ensures { handed_statistic body.now at.old left.old ≡ record { answer = result; at = at.new; left = left.new; device = device.new; read = read.new; written = written.new } }
{
    flexfiles::sc_statistics_next(body, at, left, device, read, written)
}
