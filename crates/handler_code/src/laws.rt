ghost use Rattle.teapot_tree.specs.declared.protocol.Protocol.{Protocol};
ghost use Rattle.handler_code.specs.declared.code.Code.{Code};
ghost use Rattle.handler_code.specs.Doors.{EntersOnce};
ghost use Rattle.handler_code.specs.Machine.{StopsOnce};

/// The machine comes to one end at most.
pub fn stops_once()
    ensures { (p : Protocol) (code : Code) → StopsOnce p code }
{}

/// A message that enters the code comes to one end at most.
pub fn enters_once()
    ensures { (p : Protocol) (code : Code) → EntersOnce p code }
{}
