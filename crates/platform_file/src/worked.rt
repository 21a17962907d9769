//! Worked documents. Each function says of a document, made by hand, which platform it describes, or
//! with which refusal it is refused.
ghost use Rattle.std.specs.Prelude.{◌≡◌, Ok, Err};
ghost use Rattle.platform_file.specs.Platform.{platform_of};
ghost use Rattle.platform_file.specs.Worked.{example, example_platform, version_2, version_2_platform, key_of_version_2, unknown_in_version_1, unknown_keys, least_unknown_key, shared_name, second_bearer};

/// A commented platform with a value of its own for some keys, and defaults for the others.
pub fn reads_an_example()
    ensures { platform_of example ≡ Ok example_platform }
{}

/// In version 2 a memory allows a fetch_add, or says that it doesn't.
pub fn reads_version_2()
    ensures { platform_of version_2 ≡ Ok version_2_platform }
{}

/// In version 1 the key of a fetch_add is unknown.
pub fn refuses_a_key_of_version_2()
    ensures { platform_of key_of_version_2 ≡ Err unknown_in_version_1 }
{}

/// Of the unknown keys the least in byte order is named, whatever their order in the file.
pub fn refuses_the_least_unknown_key()
    ensures { platform_of unknown_keys ≡ Err least_unknown_key }
{}

/// An initiator and a memory with one name are refused at the memory.
pub fn refuses_a_second_bearer()
    ensures { platform_of shared_name ≡ Err second_bearer }
{}
