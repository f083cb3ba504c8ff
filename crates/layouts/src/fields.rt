// Where the fields of an extent lie in a body of each kind: nothing else of this crate, and nobody above it, knows.
// In this order: sizes by kind; the numbers of an extent; its handle; their stores; its device id, and its store; the store of an extent, and of its length. A place goes beside
// the bytes that it is in: a part of them would lose where in the body an extent begins, which C is told.
ghost use Rattle.std.specs.Prelude.{◌≡◌, cond, ◌+◌, ◌^◌, ◌≤◌, ◌<◌, length, take, drop, get_or};
ghost use Rattle.std.proofs.lemmas.List.Edits.{sets};
ghost use Rattle.xdr.specs.Be.{be_bytes};
ghost use Rattle.layouts.specs.declared.kinds.Kind.TheVariants.{Scsi};
ghost use Rattle.layouts.specs.Layout.{handle_size, extent_size, body_size, held_in, row_of, numbers_of, numbers_bytes, row_bytes};
ghost use Rattle.layouts.specs.Columns.{handle_count};
ghost use Rattle.layouts.specs.Placing.{scsi, placed};

use crate::kinds::Kind;
use extents::Numbers;

impl Kind {
    // How many bytes a handle takes.
    pub(crate) fn handle_size(self) -> usize
        ensures { result ≡ handle_size self }
    {
        match self {
            Kind::Scsi => 0,
            Kind::Rdma => 4,
        }
    }

    // How many handles a list of n extents has.
    pub(crate) fn handles(self, n: usize) -> usize
        ensures { result ≡ handle_count self n }
    {
        match self {
            Kind::Scsi => 0,
            Kind::Rdma => n,
        }
    }

    // How many bytes an extent takes.
    fn extent_size(self) -> usize
        ensures { result ≡ extent_size self }
    {
        44 + self.handle_size()
    }

    // How many bytes the count and n extents take.
    #[tactic(auto, unfolding(crate::specs::Layout::body_size))]
    pub(crate) fn body_size(self, n: usize) -> usize
        requires { body_size self n < 2 ^ 64 }
        ensures { result ≡ body_size self n }
    {
        4 + self.extent_size() * n
    }

    // How many whole extents have room after a body's count: by a constant of each kind, since dividing by any number is slow.
    pub(crate) fn held(self, s: &[u8]) -> usize
        ensures { result ≡ held_in self s.now }
    {
        let room = s.len().saturating_sub(4);
        match self {
            Kind::Scsi => room / 44,
            Kind::Rdma => room / 48,
        }
    }

    // The numbers of the extent at `at`.
    pub(crate) fn numbers_at(self, s: &[u8], at: usize) -> Numbers
        requires { at + (44 + handle_size self) ≤ length s.now }
        ensures { result ≡ numbers_of (row_of self (drop at s.now)).extent }
    {
        let rest = at + self.handle_size();
        Numbers {
            offset: xdr::be64(s, at + 16),
            len: xdr::be64(s, rest + 24),
            storage: xdr::be64(s, rest + 32),
            state: xdr::be32(s, rest + 40),
        }
    }

    // The handle of the extent at `at`; 0 in a SCSI body.
    pub(crate) fn handle_at(self, s: &[u8], at: usize) -> u32
        requires { at + (44 + handle_size self) ≤ length s.now }
        ensures { result ≡ (row_of self (drop at s.now)).handle }
    {
        match self {
            Kind::Scsi => 0,
            Kind::Rdma => xdr::be32(s, at + 24),
        }
    }

    // Stores a handle, in as many bytes as it takes.
    fn put_handle(self, d: &mut [u8], at: usize, handle: u32)
        requires { at + handle_size self ≤ length d.old }
        ensures { d.new ≡ sets d.old at (be_bytes (handle_size self) handle) }
    {
        match self {
            Kind::Scsi => {}
            Kind::Rdma => xdr::put32(d, at, handle),
        }
    }

    // Stores the numbers of an extent, and its handle among them.
    pub(crate) fn put_numbers(self, d: &mut [u8], at: usize, n: Numbers, handle: u32)
        requires { at + (28 + handle_size self) ≤ length d.old }
        ensures { d.new ≡ sets d.old at (numbers_bytes self n handle) }
    {
        let rest = at + self.handle_size();
        xdr::put64(d, at, n.offset);
        self.put_handle(d, at + 8, handle);
        xdr::put64(d, rest + 8, n.len);
        xdr::put64(d, rest + 16, n.storage);
        xdr::put32(d, rest + 24, n.state);
    }
}

// The device id of the extent at `at`.
pub(crate) fn device_at(s: &[u8], at: usize) -> [u8; 16]
    requires { at + 16 ≤ length s.now }
    ensures { result ≡ take 16 (drop at s.now) }
{
    let mut d = [0u8; 16];
    d.copy_from_slice(&s[at..at + 16]);
    d
}

// Stores a device id.
pub(crate) fn put_device(d: &mut [u8], at: usize, devices: &[u8], from: usize)
    requires { (at + 16 ≤ length d.old) × (from + 16 ≤ length devices.now) }
    ensures { d.new ≡ sets d.old at (take 16 (drop from devices.now)) }
{
    d[at..at + 16].copy_from_slice(&devices[from..from + 16]);
}

// Stores a SCSI extent; one that is bare without its device id and its storage offset.
pub(crate) fn put_extent(
    d: &mut [u8],
    at: usize,
    devices: &[u8],
    from: usize,
    n: Numbers,
    bare: bool,
)
    requires { (at + 44 ≤ length d.old) × (from + 16 ≤ length devices.now) }
    ensures { d.new ≡ sets d.old at (row_bytes Scsi (scsi (placed (take 16 (drop from devices.now)) n bare))) }
{
    if bare {
        d[at..at + 16].copy_from_slice(&[0; 16]);
        Kind::Scsi.put_numbers(d, at + 16, Numbers { storage: 0, ..n }, 0);
    } else {
        put_device(d, at, devices, from);
        Kind::Scsi.put_numbers(d, at + 16, n, 0);
    }
}

// Stores the length of the SCSI extent at `at`.
pub(crate) fn put_length(d: &mut [u8], at: usize, len: u64)
    requires { at + 44 ≤ length d.old }
    ensures { d.new ≡ sets d.old (at + 24) (be_bytes 8 len) }
{
    xdr::put64(d, at + 24, len);
}
