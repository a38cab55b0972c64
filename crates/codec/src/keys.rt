// Keys by their numbers: their ranges.
ghost use Rattle.std.specs.Prelude.{◌≡◌};
ghost use Rattle.model.specs.Records.{key_in_range};

use crate::fields::in_range;
use crate::layouts::{NAMESPACE, PARTITION, STORAGE};
use types::Key;

// Every field of the key is in its range.
pub fn key_in_range(key: Key) -> bool
    ensures { result ≡ key_in_range key }
{
    in_range(STORAGE, key.storage)
        & in_range(NAMESPACE, key.namespace)
        & in_range(NAMESPACE, key.table)
        & in_range(PARTITION, key.partition)
        & in_range(PARTITION, key.clustering)
}
