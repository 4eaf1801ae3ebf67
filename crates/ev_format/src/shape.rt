ghost use Rattle.std.specs.Prelude.{◌≡◌};
ghost use Rattle.ev_format.specs.Shapes.{ShapeView, IsShape};

use crate::Slot;

/// What a program's event files look like: what their header names, and which records each address may have.
pub trait Shape {
    /// What the functions below answer.
    ghost shown: { Self → ShapeView };

    /// The address at which a run begins.
    fn entry(&self) -> u32
        ensures { result ≡ (shown self.now).entry };

    /// The address of the first code word.
    fn first(&self) -> u32
        ensures { result ≡ (shown self.now).first };

    /// How many code words there are.
    fn count(&self) -> u32
        ensures { result ≡ (shown self.now).count };

    /// Which records an address may have: never both a value and a landing.
    fn slot(&self, address: u32) -> Slot
        ensures { result ≡ (shown self.now).slot address };

    /// The registers that are needed at the target of an indirect jump: bit k of the mask is set for x(k), and bit 0 never
    /// is. `None` where no code word stands there.
    fn needs(&self, target: u32) -> Option<u32>
        ensures { result ≡ (shown self.now).needs target };

    /// No address may have both a value and a landing, and no mask has bit 0.
    ghost well_formed: { (shape : Self) → IsShape (shown shape) };
}
