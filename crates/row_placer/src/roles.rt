// What stands on lanes, and for what purpose.
ghost use Rattle.std.specs.Prelude.{◌≡◌, ◌==◌};
ghost use Rattle.row_placer.specs.Told.{role_code, is_tag};

/// The purpose of the value on a lane.
#[derive(Clone, Copy)]
pub enum Role {
    /// No purpose: the lane is free.
    Free,
    /// The value is kept for later uses.
    Kept,
    /// The value is the first operand of the gate in hand.
    First,
    /// The value is the second operand of the gate in hand.
    Second,
    /// The value is for the port with this number.
    Port(u32),
}

impl Role {
    fn is(self, other: Role) -> bool
        ensures { result ≡ (role_code self == role_code other) }
    {
        match (self, other) {
            (Role::Free, Role::Free) => true,
            (Role::Kept, Role::Kept) => true,
            (Role::First, Role::First) => true,
            (Role::Second, Role::Second) => true,
            (Role::Port(port), Role::Port(wanted)) => port == wanted,
            _ => false,
        }
    }
}

/// What stands on a lane: a value, by its number, and its role. On a free lane the value is 0.
#[derive(Clone, Copy)]
pub struct Tag {
    pub value: u32,
    pub role: Role,
}

impl Tag {
    /// Returns whether the tag is of this value in this role.
    pub fn is(self, value: u32, role: Role) -> bool
        ensures { result ≡ is_tag value role self }
    {
        self.role.is(role) && self.value == value
    }
}
