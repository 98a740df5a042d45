ghost use Rattle.stache_l_table.specs.Laws.{BlocksAreRead, TableIsMeaning};

/// Under Stache_L a message does to a block what the table says.
pub fn table_is_the_meaning()
    ensures { TableIsMeaning }
{}

/// What is read off a block is the block.
pub fn blocks_are_read()
    ensures { BlocksAreRead }
{}
