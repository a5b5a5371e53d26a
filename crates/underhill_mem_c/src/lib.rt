// The C library: each function of `include/underhill_mem.h`. It calls the library's function of its name, whose clauses it states again.
#![tactic(auto)]

mod locks;
mod overlays;
mod protections;
mod registration;
mod settings;
mod visibility;
