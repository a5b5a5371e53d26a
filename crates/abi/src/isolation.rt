// The isolation types of the domain: the numbers of the hypervisor's partition isolation types.

pub const SNP: u64 = 2;

pub const TDX: u64 = 3;

pub const CCA: u64 = 4;
