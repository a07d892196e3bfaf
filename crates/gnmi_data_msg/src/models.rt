//! Reading a ModelData.
use crate::{Message, MsgFault, fields_in, single_text};
use base_kinds::Text;
use std::alloc::Global;

/// The number of a model's name.
pub const MODEL_NAME: u32 = 1;

/// A model that a request names (gNMI 2.6.1). Its organization and its version are skipped.
#[derive(Drop)]
pub struct ModelData {
    pub name: Text,
}

/// BadMessage where the octets aren't fields, or a name isn't UTF-8.
impl Message for ModelData {
    ghost use Rattle.gnmi_data_msg.specs.Models.{model_of};

    ghost meaning = { model_of };

    #[tactic(auto, unfolding(crate::specs::Models::model_of))]
    fn read(alloc: Global, octets: &[u8]) -> Result<ModelData, MsgFault> {
        let fields = fields_in(alloc, octets)?;
        let name = single_text(alloc, octets, fields.items(), MODEL_NAME)?;
        Ok(ModelData { name })
    }
}
