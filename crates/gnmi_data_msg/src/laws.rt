// What is written is read as itself.
ghost use Rattle.std.specs.Prelude.{◌≡◌, List, [], Some, false, map};
ghost use Rattle.base_kinds.specs.declared.request.Given.TheVariants as given;
ghost use Rattle.base_kinds.specs.declared.value.Value.{Value as LeafValue};
ghost use Rattle.base_kinds.specs.declared.value.Value.TheVariants as values;
ghost use Rattle.base_kinds.specs.Values.{values_in};
ghost use Rattle.base_kinds.specs.declared.path.Elem.{Elem as PathElem};
ghost use Rattle.gnmi_data_msg.specs.Paths.{path_of};
ghost use Rattle.gnmi_data_msg.specs.TypedValues.{typed_of};
ghost use Rattle.gnmi_data_msg.specs.ReadBack.{IsWritable, IsWritableScalar, IsWritableList, read_scalar};
ghost use Rattle.gnmi_data_msg.specs.Writing.{path_message, value_message};

/// The octets of a path are read as that path, with no origin and no target.
pub fn paths_read_back()
    ensures { (path : List PathElem) → IsWritable path → path_of (path_message path)
        ≡ Some (record { path = path; origin = []; target = []; old_element = false }) }
{}

/// The octets of a value are read as that value; an enum as the text that it is.
pub fn values_read_back()
    ensures scalars { (value : LeafValue) → IsWritableScalar value
        → typed_of (value_message value) ≡ Some (given.Scalar (read_scalar value)) }
    ensures lists { (value : LeafValue) → IsWritableList value → typed_of (value_message value)
        ≡ Some (given.Scalar (values.List (map read_scalar (values_in value)))) }
{}
