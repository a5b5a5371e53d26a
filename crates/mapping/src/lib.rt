// GuestMemoryMapping over lent maps: the private and shared marks and the permission maps (empty where permissions are not
// tracked), as built from the layout, as updated, and as they stand.
#![tactic(auto)]

ghost use Rattle.std.specs.Prelude.{true, ◌≡◌, ◌+◌, ◌≤◌, length, replicate};
ghost use Rattle.laws.specs.Ranges.{between};
ghost use Rattle.bitmap.specs.Pages.{written};
ghost use Rattle.layout.specs.Layout.{entries_of, is_ram};
ghost use Rattle.mapping.specs.Maps.{perms_in, perms_lent, same_maps, maps, maps_in, maps_lent, fresh, built, permission_len, marks_fit, permissions_fit, maps_fit, lengths_of, flags_at, permitted};

use permissions::HvMapGpaFlags;

// Lent permission maps.
#[derive(Clone, Copy)]
pub struct PermissionMaps<'a> {
    pub read: &'a [u8],
    pub write: &'a [u8],
    pub kernel: &'a [u8],
    pub user: &'a [u8],
}

// Permission maps lent to be written.
#[derive(Drop)]
pub struct PermissionMapsMut<'a> {
    pub read: &'a mut [u8],
    pub write: &'a mut [u8],
    pub kernel: &'a mut [u8],
    pub user: &'a mut [u8],
}

// The six lent maps.
#[derive(Clone, Copy)]
pub struct PageMaps<'a> {
    pub private: &'a [u8],
    pub shared: &'a [u8],
    pub permissions: PermissionMaps<'a>,
}

impl<'a> PageMaps<'a> {
    // The maps that are lent one by one.
    pub fn of(
        private: &'a [u8],
        shared: &'a [u8],
        read: &'a [u8],
        write: &'a [u8],
        kernel: &'a [u8],
        user: &'a [u8],
    ) -> Self
        ensures { maps_in result ≡ maps private.now shared.now read.now write.now kernel.now user.now }
    {
        let permissions = PermissionMaps {
            read,
            write,
            kernel,
            user,
        };
        Self {
            private,
            shared,
            permissions,
        }
    }
}

// The lengths of the six maps in bytes.
#[derive(Clone, Copy)]
pub struct MapLengths {
    pub private: u64,
    pub shared: u64,
    pub read: u64,
    pub write: u64,
    pub kernel: u64,
    pub user: u64,
}

impl MapLengths {
    // The lengths of lent maps.
    pub fn of(maps: PageMaps<'_>) -> Self
        ensures { result ≡ lengths_of (maps_in maps.entry) }
    {
        Self {
            private: maps.private.len() as u64,
            shared: maps.shared.len() as u64,
            read: maps.permissions.read.len() as u64,
            write: maps.permissions.write.len() as u64,
            kernel: maps.permissions.kernel.len() as u64,
            user: maps.permissions.user.len() as u64,
        }
    }
}

// Whether the marks have `len` bytes each.
fn marks_fit(len: u64, lengths: MapLengths) -> bool
    ensures { result ≡ marks_fit len lengths }
{
    lengths.private == len && lengths.shared == len
}

// The length of a permission map.
fn permission_len(len: u64, tracked: bool) -> u64
    ensures { result ≡ permission_len len tracked }
{
    if tracked { len } else { 0 }
}

// Whether the permission maps have `len` bytes each.
fn permissions_fit(len: u64, lengths: MapLengths) -> bool
    ensures { result ≡ permissions_fit len lengths }
{
    lengths.read == len && lengths.write == len && lengths.kernel == len && lengths.user == len
}

// Whether maps of these lengths fit a layout whose maps have `len` bytes.
pub fn maps_fit(len: u64, tracked: bool, lengths: MapLengths) -> bool
    ensures { result ≡ maps_fit len tracked lengths }
{
    marks_fit(len, lengths) && permissions_fit(permission_len(len, tracked), lengths)
}

// Every page of the map not set.
fn clear(map: &mut [u8])
    ensures { map.new ≡ replicate (length map.old) 0 }
{
    let len = map.len() as u64;
    bitmap::fill_bytes(map, 0, len, false);
}

// The pages from `from` to before `to` set.
fn set_entry(map: &mut [u8], from: u64, to: u64)
    ensures { map.new ≡ written 8 (between from to) true map.old }
{
    if to <= from {
        return;
    }
    bitmap::update(map, from, to - 1, true);
}

// Every RAM page set.
fn set_ram(map: &mut [u8], ram: &[u64])
    ensures { map.new ≡ written 8 (is_ram (entries_of ram.now)) true map.old }
{
    for i in 0..layout::entry_count(ram) {
        let e = layout::entry_at(ram, i);
        set_entry(map, layout::page_up(e.start), layout::page_up(e.end));
    }
}

// A map as built: RAM pages in the state, no other bit, whatever the map held.
fn init(map: &mut [u8], ram: &[u64], state: bool)
    ensures { map.new ≡ fresh (entries_of ram.now) state (length map.old) }
{
    clear(map);
    if state {
        set_ram(map, ram);
    }
}

// All maps as built.
pub fn build(private: &mut [u8], shared: &mut [u8], maps: &mut PermissionMapsMut<'_>, ram: &[u64])
    ensures same { same_maps maps.old maps.new }
    ensures value { maps_lent private.new shared.new maps.new ≡ built (entries_of ram.now) (maps_lent private.old shared.old maps.old) }
{
    init(private, ram, true);
    init(shared, ram, false);
    init(maps.read, ram, true);
    init(maps.write, ram, true);
    init(maps.kernel, ram, true);
    init(maps.user, ram, true);
}

// The permissions of one page.
fn update_page(maps: &mut PermissionMapsMut<'_>, gpn: u64, flags: HvMapGpaFlags)
    ensures same { same_maps maps.old maps.new }
    ensures value { perms_lent maps.new ≡ permitted gpn (gpn + 1) flags (perms_lent maps.old) }
{
    bitmap::set_page(maps.read, gpn, flags.readable);
    bitmap::set_page(maps.write, gpn, flags.writable);
    bitmap::set_page(maps.kernel, gpn, flags.kernel_executable);
    bitmap::set_page(maps.user, gpn, flags.user_executable);
}

// The permissions of the pages from `first` to `last`, with it.
pub fn update_permission_bitmaps(
    maps: &mut PermissionMapsMut<'_>,
    first: u64,
    last: u64,
    flags: HvMapGpaFlags,
)
    requires { first ≤ last }
    ensures same { same_maps maps.old maps.new }
    ensures value { perms_lent maps.new ≡ permitted first (last + 1) flags (perms_lent maps.old) }
{
    if first == last {
        update_page(maps, first, flags);
        return;
    }
    bitmap::update_run(maps.read, first, last, flags.readable);
    bitmap::update_run(maps.write, first, last, flags.writable);
    bitmap::update_run(maps.kernel, first, last, flags.kernel_executable);
    bitmap::update_run(maps.user, first, last, flags.user_executable);
}

// What the permission maps hold of a page.
pub fn flags_at(maps: PermissionMaps<'_>, gpn: u64) -> HvMapGpaFlags
    ensures { result ≡ flags_at (perms_in maps.entry) gpn }
{
    HvMapGpaFlags {
        readable: bitmap::page_state(maps.read, gpn),
        writable: bitmap::page_state(maps.write, gpn),
        kernel_executable: bitmap::page_state(maps.kernel, gpn),
        user_executable: bitmap::page_state(maps.user, gpn),
    }
}
