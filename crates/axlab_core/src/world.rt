//! What contracts see of all that a call works with.
use lab_ports::{Library, Sink};
use player_core::{Bench, Player};

/// A bench with a library and an output, as contracts see them together. A clause names them by
/// `⟦<Bench as Watched<L, O>>⟧.world bench.now files.now out.now`.
pub trait Watched<L, O> {
    ghost use Rattle.axlab_core.specs.World.{World};

    ghost world: { Self → L → O → World };
}

impl<L: Library, O: Sink> Watched<L, O> for Bench {
    ghost use Rattle.std.specs.Prelude.{map};

    ghost world = { λ bench files out. record {
      bench = record {
        left = map (λ p. (Player-box p).state p.value) bench.left.items;
        right = map (λ p. (Player-box p).state p.value) bench.right.items;
      };
      holding = L.holding files;
      asked = L.asked files;
      read_faults = L.faults files;
      taken = O.taken out;
      write_faults = O.faults out;
    } };
}
