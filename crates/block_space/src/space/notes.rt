//! What the collector notes of the blocks.
ghost use Rattle.std.specs.Prelude.{◌≡◌, ◌≤◌, ◌+◌, Some, min};
ghost use Rattle.quantum_space.specs.AdminBytes.{aged, whitened, with_age, with_shade};
ghost use Rattle.quantum_space.specs.declared.shade.Shade.TheVariants as shade;
ghost use Rattle.block_space.specs.Spaces.{admin_at, HasBlockAt, IsRenotedSpace, with_admin, with_card, with_finalised};
ghost use Rattle.block_space.specs.Maps.{AreNoted};
ghost use Rattle.block_space.specs.Marking.{AreWhite};

use crate::space::Space;
use quantum_space::{Admin, Kind, Place, Shade};

impl Space {
    /// What is noted of the block at a place. O(1).
    pub fn admin(&self, p: Place) -> Admin
        requires { HasBlockAt self.now p }
        ensures value { result ≡ admin_at self.now p }
        ensures age { result.age ≤ 3 }
    {
        let Some(spot) = self.spot(p) else {
            unreachable!()
        };
        let byte = match spot.kind {
            Kind::Small => self.small.byte(spot.at),
            Kind::Medium => self.medium.byte(spot.at),
        };
        Admin::from_byte(byte)
    }

    /// Notes this of the block at a place, and changes nothing else. O(1).
    fn set_admin(&mut self, p: Place, admin: Admin)
        requires block { HasBlockAt self.old p }
        requires age { admin.age ≤ 3 }
        ensures { self.new ≡ with_admin self.old p admin }
    {
        let Some(spot) = self.spot(p) else {
            unreachable!()
        };
        let byte = admin.to_byte();
        match spot.kind {
            Kind::Small => self.small.set_byte(spot.at, byte),
            Kind::Medium => self.medium.set_byte(spot.at, byte),
        }
    }

    /// Changes the shade of the block at a place, and nothing else. O(1).
    pub fn set_mark(&mut self, p: Place, shade: Shade)
        requires { HasBlockAt self.old p }
        ensures { self.new ≡ with_admin self.old p (with_shade (admin_at self.old p) shade) }
    {
        let admin = self.admin(p);
        self.set_admin(p, Admin { shade, ..admin });
    }

    /// Changes the age of the block at a place, and nothing else. O(1).
    pub fn set_age(&mut self, p: Place, age: u8)
        requires block { HasBlockAt self.old p }
        requires range { age ≤ 3 }
        ensures { self.new ≡ with_admin self.old p (with_age (admin_at self.old p) age) }
    {
        let admin = self.admin(p);
        self.set_admin(p, Admin { age, ..admin });
    }

    /// Changes whether the block at a place is remembered, and nothing else. O(1).
    pub fn set_card(&mut self, p: Place, on: bool)
        requires { HasBlockAt self.old p }
        ensures { self.new ≡ with_admin self.old p (with_card (admin_at self.old p) on) }
    {
        let admin = self.admin(p);
        self.set_admin(p, Admin { card: on, ..admin });
    }

    /// Notes that the finaliser of the block at a place has run, and changes nothing else. O(1).
    pub fn set_finalised(&mut self, p: Place)
        requires { HasBlockAt self.old p }
        ensures { self.new ≡ with_admin self.old p (with_finalised (admin_at self.old p)) }
    {
        let admin = self.admin(p);
        self.set_admin(
            p,
            Admin {
                finalised: true,
                ..admin
            },
        );
    }

    /// Makes the shade of each block white, and changes nothing else. O(quanta of the subzones).
    pub fn whiten_all(&mut self)
        ensures blocks { AreNoted (λ a. with_shade a shade.White) self.old self.new }
        ensures bytes { IsRenotedSpace whitened self.old self.new }
        ensures by_quantum { AreWhite self.old self.new }
    {
        self.is_sound();
        self.whiten();
    }

    fn whiten(&mut self)
        ensures { IsRenotedSpace whitened self.old self.new }
    {
        self.small.whiten();
        self.medium.whiten();
    }

    /// Makes each block one older, up to 3, and changes nothing else. O(quanta of the subzones).
    pub fn age_all(&mut self)
        ensures blocks { AreNoted (λ a. with_age a (min 3 (a.age + 1))) self.old self.new }
        ensures bytes { IsRenotedSpace aged self.old self.new }
    {
        self.is_sound();
        self.age();
    }

    fn age(&mut self)
        ensures { IsRenotedSpace aged self.old self.new }
    {
        self.small.age();
        self.medium.age();
    }
}
