// Permissions: the set bits of a number.
ghost use Rattle.std.specs.Prelude.{◌≡◌, ◌<◌};
ghost use Rattle.words.specs.Permissions.{delegated, revoked, within, permits};

// What delegation with a mask gives of some permissions.
pub fn keep(permissions: u32, mask: u32) -> u32
    ensures { result ≡ delegated permissions mask }
{
    permissions & mask
}

// What revocation with a mask leaves of some permissions.
pub fn remove(permissions: u32, mask: u32) -> u32
    ensures { result ≡ revoked permissions mask }
{
    permissions - (permissions & mask)
}

// Whether each of the permissions is among the others.
pub fn is_within(permissions: u32, others: u32) -> bool
    ensures { result ≡ within permissions others }
{
    permissions & others == permissions
}

// Whether the permission of a bit's number is among the permissions.
pub fn has(bit: u32, permissions: u32) -> bool
    requires { bit < 32 }
    ensures { result ≡ permits bit permissions }
{
    (permissions >> bit) % 2 == 1
}
