ghost use Rattle.std.specs.Prelude.{◌≡◌, ◌≢◌, ◌<◌, ◌/◌, ◌%◌, ℕ, slice_index, slice_set};
ghost use Rattle.block_tags.specs.Copies.{Copies, block_words, with_word, word_at};

/// A block's words are words of the memory. A word that is written is written in its own block, and no other block
/// changes.
pub fn blocks_are_parts_of_the_words()
    ensures word { (m : Copies) (address : ℕ) → 0 < m.shape.words
        → slice_index (block_words m (address / m.shape.words)) (address % m.shape.words) ≡ word_at m address }
    ensures written { (m : Copies) (address value : ℕ) → 0 < m.shape.words
        → block_words (with_word m address value) (address / m.shape.words)
        ≡ slice_set (block_words m (address / m.shape.words)) (address % m.shape.words) value }
    ensures others { (m : Copies) (address value block : ℕ) → 0 < m.shape.words → block ≢ address / m.shape.words
        → block_words (with_word m address value) block ≡ block_words m block }
{}
