use std::marker::Brand;

/// Names a setup, its code, and wires. Each call of a program picks them.
pub trait Naming {
    ghost use Rattle.handler_code.specs.declared.code.Code.{Code};
    ghost use Rattle.dsm_runs.specs.Setups.{Setup};
    ghost use Rattle.tw_wire.specs.Places.{Names};

    ghost setup: { Setup };

    ghost code: { Code };

    ghost wires: { Names };
}

impl Naming for Brand {
    ghost use Rattle.std.specs.Prelude.{[]};
    ghost use Rattle.node_seats.specs.Named.{no_setup};

    ghost setup = { no_setup };

    ghost code = { record { ops = []; doors = []; rests = [] } };

    ghost wires = { [] };
}
