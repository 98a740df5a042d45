ghost use Rattle.setup_numbers.specs.Settings.{ReadSettingsAreSmall, SettingsOfSmallLines};

use input_numbers::{numbers_of_texts_are_small, read_programs_are_small};
use tempest_input::layout_is_read_both_ways;

/// Where the lines of its words and of its programs have numbers of 64 bits, so has what a text sets up.
pub fn settings_of_small_lines()
    ensures { SettingsOfSmallLines }
{
    read_programs_are_small();
}

/// What is read from a text, with a report behind it or without, has numbers of 64 bits.
pub fn read_settings_are_small()
    ensures { ReadSettingsAreSmall }
{
    numbers_of_texts_are_small();
    layout_is_read_both_ways();
    settings_of_small_lines();
}
