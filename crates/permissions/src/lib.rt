// VTLs, isolation types, permission flags, the defaults, and the RMPADJUST operands of SNP.
#![tactic(auto)]

ghost use Rattle.std.specs.Prelude.{◌≡◌, ◌≤◌};
ghost use Rattle.laws.specs.Bools.{digit};
ghost use Rattle.permissions.specs.Flags.{fit_vtl, vtl_of, vtl_number, is_vtl0, fit_isolation, isolation_of, fit_flags, flags_of, bits_of, no_flags, all_flags};
ghost use Rattle.permissions.specs.Defaults.{first_defaults, with_default};
ghost use Rattle.permissions.specs.Rmpadjust.{operand_of};
ghost use Rattle.permissions.specs.HvError.{code_of};

use abi::{FLAGS_END, code, isolation, refusal};

#[derive(Clone, Copy, Debug, PartialEq, Eq)]
pub enum GuestVtl {
    Vtl0,
    Vtl1,
}

// The isolation types of the domain.
#[derive(Clone, Copy, Debug, PartialEq, Eq)]
pub enum IsolationType {
    Snp,
    Tdx,
    Cca,
}

#[derive(Clone, Copy, Debug, PartialEq, Eq)]
pub struct HvMapGpaFlags {
    pub readable: bool,
    pub writable: bool,
    pub kernel_executable: bool,
    pub user_executable: bool,
}

// The permissions that a page gets as it returns to private.
#[derive(Clone, Copy, Debug, PartialEq, Eq)]
pub struct DefaultVtlPermissions {
    pub vtl0: HvMapGpaFlags,
    // None where none were given.
    pub vtl1: Option<HvMapGpaFlags>,
}

// Whether a number names a VTL, and which.
pub fn is_vtl(n: u64) -> bool
    ensures { result ≡ fit_vtl n }
{
    n < 2
}

// Kept, as isolation_of: no TryFrom, since every number of a state block is a VTL, and the clause says which.
pub fn vtl_of(n: u64) -> GuestVtl
    ensures { result ≡ vtl_of n }
{
    if n == 0 {
        GuestVtl::Vtl0
    } else {
        GuestVtl::Vtl1
    }
}

pub fn vtl_number(vtl: GuestVtl) -> u64
    ensures { result ≡ vtl_number vtl }
{
    match vtl {
        GuestVtl::Vtl0 => 0,
        GuestVtl::Vtl1 => 1,
    }
}

// Whether a number names an isolation type of the domain, and which.
pub fn is_isolation(n: u64) -> bool
    ensures { result ≡ fit_isolation n }
{
    isolation::SNP <= n && n <= isolation::CCA
}

pub fn isolation_of(n: u64) -> IsolationType
    ensures { result ≡ isolation_of n }
{
    match n {
        isolation::SNP => IsolationType::Snp,
        isolation::TDX => IsolationType::Tdx,
        _ => IsolationType::Cca,
    }
}

pub fn is_vtl0(vtl: GuestVtl) -> bool
    ensures { result ≡ is_vtl0 vtl }
{
    vtl == GuestVtl::Vtl0
}

// Whether a number is a sum of flags.
pub fn is_flags(n: u64) -> bool
    ensures { result ≡ fit_flags n }
{
    n < FLAGS_END
}

impl HvMapGpaFlags {
    pub fn from_bits(n: u64) -> Self
        ensures { result ≡ flags_of n }
    {
        Self {
            readable: n % 2 == 1,
            writable: n / 2 % 2 == 1,
            kernel_executable: n / 4 % 2 == 1,
            user_executable: n / 8 % 2 == 1,
        }
    }

    pub fn into_bits(self) -> u64
        ensures { result ≡ bits_of self }
    {
        bool_to_u64(self.readable)
            + 2 * bool_to_u64(self.writable)
            + 4 * bool_to_u64(self.kernel_executable)
            + 8 * bool_to_u64(self.user_executable)
    }

    pub fn none() -> Self
        ensures { result ≡ no_flags }
    {
        Self {
            readable: false,
            writable: false,
            kernel_executable: false,
            user_executable: false,
        }
    }

    pub fn all() -> Self
        ensures { result ≡ all_flags }
    {
        Self {
            readable: true,
            writable: true,
            kernel_executable: true,
            user_executable: true,
        }
    }
}

pub fn bool_to_u64(b: bool) -> u64
    ensures value { result ≡ digit b }
    ensures upper_bound { result ≤ 1 }
{
    u64::from(b)
}

impl DefaultVtlPermissions {
    pub fn new() -> Self
        ensures { result ≡ first_defaults }
    {
        Self {
            vtl0: HvMapGpaFlags::all(),
            vtl1: None,
        }
    }

    // The defaults with one VTL's set, and the other's kept.
    pub fn with(self, vtl: GuestVtl, permissions: HvMapGpaFlags) -> Self
        ensures { result ≡ with_default self vtl permissions }
    {
        match vtl {
            GuestVtl::Vtl0 => Self {
                vtl0: permissions,
                ..self
            },
            GuestVtl::Vtl1 => Self {
                vtl1: Some(permissions),
                ..self
            },
        }
    }

    // The same behind a reference.
    pub fn set(&mut self, vtl: GuestVtl, permissions: HvMapGpaFlags)
        ensures { self.new ≡ with_default self.old vtl permissions }
    {
        *self = self.with(vtl, permissions);
    }
}

// The defaults with one VTL's set: they are lent to `set`.
pub fn set_default(
    defaults: DefaultVtlPermissions,
    vtl: GuestVtl,
    permissions: HvMapGpaFlags,
) -> DefaultVtlPermissions
    ensures { result ≡ with_default defaults vtl permissions }
{
    let mut t = defaults;
    t.set(vtl, permissions);
    t
}

// RMPADJUST operands: sixteen for VTL0, by flags, then sixteen for VTL1.
const RMPADJUST: [u64; 32] = [
    2, 258, 514, 770, 2050, 2306, 2562, 2818, 1026, 1282, 1538, 1794, 3074, 3330, 3586, 3842, 1,
    257, 513, 769, 2049, 2305, 2561, 2817, 1025, 1281, 1537, 1793, 3073, 3329, 3585, 3841,
];

// The operand that gives a VTL these permissions.
pub fn rmpadjust(vtl: GuestVtl, protections: HvMapGpaFlags) -> u64
    ensures { result ≡ operand_of vtl protections }
{
    let i = FLAGS_END * vtl_number(vtl) + protections.into_bits();
    RMPADJUST[i as usize]
}

// The HvError code of a refusal: 0 where it has none.
// Kept: a number, and no `Refusal`: its clause speaks of any number, also of those that name no refusal.
pub fn hv_error(number: u64) -> u64
    ensures { result ≡ code_of number }
{
    match number {
        refusal::NOT_RAM | refusal::LOCKED..refusal::ACCESS_DENIED => code::OPERATION_DENIED,
        refusal::ACCESS_DENIED => code::ACCESS_DENIED,
        _ => 0,
    }
}
