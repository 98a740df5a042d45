ghost use Rattle.std.specs.Prelude.{◌≡◌, ◌⊎◌, ◌*◌, false, length};
ghost use Rattle.tw_base.specs.Lists.{Each};
ghost use Rattle.mini_asm.specs.Programs.{has_faa};
ghost use Rattle.mini_asm.specs.Run.{IsInit};

use mini_asm::Program;
use std::marker::Model;
use teapot_tree::Checked;
use tw_base::{Listed, Shape};

/// What is fixed in a run: the version of its input, the shape of the machine, the words that do not start at 0, a
/// program for each node, and the protocol.
#[derive(Debug, Drop)]
pub struct Setup {
    version: u8,
    shape: Shape,
    init: Listed<(u32, u64)>,
    programs: Listed<Program>,
    protocol: Checked,
}

impl Model for Setup {
    ghost use Rattle.std.specs.Coded.{codes};
    ghost use Rattle.teapot_tree.specs.contracts.expr.Expr as expr;
    ghost use Rattle.teapot_tree.specs.contracts.stmt.Do as statement;
    ghost use Rattle.dsm_runs.specs.Setups.{Setup as Fixed, IsSetup};

    ghost Value = { Fixed };

    ghost coded = { Prim.hlevel (codes, expr.the_row.coded, statement.the_row.coded) };

    ghost view = { λ s. record { version = s.version; shape = s.shape; init = s.init; programs = s.programs; protocol = s.protocol } };

    ghost invariant = { λ s. IsSetup (record {
      version = s.version;
      shape = s.shape;
      init = s.init;
      programs = s.programs;
      protocol = s.protocol;
    }) };
}

impl Setup {
    ghost use Rattle.dsm_runs.specs.Setups.{IsSetup};

    /// The version is 1 or 2, and in version 1 no program has a fetch-and-add. An address of `init` is below the number of
    /// words, and stands there once.
    pub fn new(
        version: u8,
        shape: Shape,
        init: Listed<(u32, u64)>,
        programs: Listed<Program>,
        protocol: Checked,
    ) -> Self
        requires version { (version ≡ 1) ⊎ (version ≡ 2) }
        requires plain { version ≡ 1 → Each (λ program. has_faa program ≡ false) programs }
        requires init { IsInit (shape.words * shape.blocks) init }
        requires programs { length programs ≡ shape.nodes }
        ensures value { result ≡ record {
          version = version;
          shape = shape;
          init = init;
          programs = programs;
          protocol = protocol;
        } }
        ensures valid { IsSetup result }
    {
        let _size = shape.size();
        let _protocol = protocol.protocol();
        Setup {
            version,
            shape,
            init,
            programs,
            protocol,
        }
    }

    /// 1 or 2.
    pub fn version(&self) -> u8
        ensures value { result ≡ self.now.version }
        ensures valid { IsSetup self.now }
    {
        self.version
    }

    pub fn shape(&self) -> Shape
        ensures value { result ≡ self.now.shape }
        ensures valid { IsSetup self.now }
    {
        self.shape
    }

    /// Addresses, and the words that they start with.
    pub fn init(&self) -> &[(u32, u64)]
        ensures value { result.now ≡ self.now.init }
        ensures valid { IsSetup self.now }
    {
        self.init.items()
    }

    /// The programs, by node.
    pub fn programs(&self) -> &[Program]
        ensures value { result.now ≡ self.now.programs }
        ensures valid { IsSetup self.now }
    {
        self.programs.items()
    }

    pub fn protocol(&self) -> &Checked
        ensures value { result.now ≡ self.now.protocol }
        ensures valid { IsSetup self.now }
    {
        &self.protocol
    }
}
