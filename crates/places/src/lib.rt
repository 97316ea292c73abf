// The place table: what a place holds, storing it, and delegating one place to another.
#![tactic(auto)]

ghost use Rattle.std.specs.Prelude.{◌≡◌, ◌<◌};
ghost use Rattle.words.specs.Sizes.{places};
ghost use Rattle.interface.specs.Basics.{put};
ghost use Rattle.interface.specs.Places.{live, parentless, cap_at, cap_table};
ghost use Rattle.places.specs.Table.{Sized, Given};

use layout::{Cap, Place};
use words::{permissions, sizes};

// The domains of the hypervisor and of the root.
pub const HYPERVISOR: u32 = 0;

pub const ROOT: u32 = 1;

// Whether a capability has permissions.
pub fn is_live(cap: Cap) -> bool
    ensures { result ≡ live cap }
{
    0 < cap.permissions
}

// A capability without a parent.
pub fn without_parent(resource: u32, permissions: u32) -> Cap
    ensures { result ≡ parentless resource permissions }
{
    Cap {
        resource,
        permissions,
        parent: 0,
        depth: 0,
    }
}

// What a place holds.
pub fn load(table: &[u32], place: Place) -> Cap
    requires { Sized table.now × (place.0 < places) }
    ensures { result ≡ cap_at table.now place.0 }
{
    let at = place.words_start();
    Cap {
        resource: table[at],
        permissions: table[at + 1],
        parent: table[at + 2],
        depth: table[at + 3],
    }
}

// Stores what a place holds from now on.
pub fn store(table: &mut [u32], place: Place, cap: Cap)
    requires { Sized table.old × (place.0 < places) }
    ensures { table.new ≡ cap_table (put (cap_at table.old) place.0 cap) }
{
    let at = place.words_start();
    table[at] = cap.resource;
    table[at + 1] = cap.permissions;
    table[at + 2] = cap.parent;
    table[at + 3] = cap.depth;
}

// Delegates one place to another with a mask, if the source is live and not too deep, the destination null, and a permission is left. Answers whether it did.
pub fn give(table: &mut [u32], destination: Place, source: Place, mask: u32) -> bool
    requires { Sized table.old × (destination.0 < places) × (source.0 < places) }
    ensures { Given table.old table.new destination.0 source.0 mask result }
{
    let from = load(table, source);
    let to = load(table, destination);
    let left = permissions::keep(from.permissions, mask);
    if !(is_live(from) & (from.depth < sizes::GREATEST_DEPTH) & !is_live(to) & (left != 0)) {
        return false;
    }
    store(
        table,
        destination,
        Cap {
            resource: from.resource,
            permissions: left,
            parent: source.link(),
            depth: from.depth + 1,
        },
    );
    true
}
